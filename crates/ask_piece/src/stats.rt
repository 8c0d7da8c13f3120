// How many have a piece, and its bucket.
ghost use Rattle.std.specs.Prelude.{◌≡◌, ◌-◌, ◌<◌};
ghost use Rattle.model.specs.ask.Questions.{reply_piece, one, get_availability, piece_stats};
ghost use Rattle.memory_layout.specs.Standing.{StandsBeside};
ghost use Rattle.ask_picker.specs.Telling.{BothSay};
ghost use Rattle.ask_piece.specs.Stats.{stats_reply};

use memory_fields::{flushed, peer_count, seeds};
use memory_layout::Shape;
use memory_ranks::rank_at;
use types::u16_to_u64;

// Peers with the seeds; whether the piece has a bucket, and which; whether it is flushed and whether it is in a queue.
#[repr(C)]
#[derive(Drop)]
pub struct PieceStats {
    pub peer_count: u64,
    pub listed: bool,
    pub priority: u16,
    pub flushed: bool,
    pub downloading: bool,
}

// The bucket of a rank, which is one more; 0 where the rank is.
fn bucket_of(rank: u16) -> u16
    ensures { result ≡ rank - 1 }
{
    rank.saturating_sub(1)
}

// Peers that have the piece, with the seeds.
pub fn get_availability(words: &[u64], cells: &[u16], s: Shape, i: usize) -> u64
    requires stands_beside { StandsBeside s words.now cells.now }
    requires i_lt_pieces { i < s.pieces }
    ensures { BothSay s words.now cells.now (λ d. reply_piece d i get_availability) (one result) }
{
    u16_to_u64(peer_count(cells, s, i)) + seeds(words, s)
}

pub fn piece_stats(words: &[u64], cells: &[u16], s: Shape, i: usize) -> PieceStats
    requires stands_beside { StandsBeside s words.now cells.now }
    requires i_lt_pieces { i < s.pieces }
    ensures { BothSay s words.now cells.now (λ d. reply_piece d i piece_stats) (stats_reply result) }
{
    let peers = get_availability(words, cells, s, i);
    let rank = rank_at(words, cells, s, i);
    let is_flushed = flushed(cells, s, i);
    let state = memory_fields::state(cells, s, i);
    PieceStats {
        peer_count: peers,
        listed: rank > 0,
        priority: bucket_of(rank),
        flushed: is_flushed,
        downloading: state != 4,
    }
}
