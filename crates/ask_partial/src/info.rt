// How many blocks of a piece are in each state, by what the memory test counted.
ghost use Rattle.std.specs.Prelude.{◌≡◌, ◌<◌, length};
ghost use Rattle.model.specs.ask.Questions.{reply_piece, flag, info_of, is_piece_finished, piece_info};
ghost use Rattle.std.proofs.Math.Option.{none};
ghost use Rattle.memory_layout.specs.Standing.{StandsBeside};
ghost use Rattle.memory_rows.specs.Lookup.{picker_in};
ghost use Rattle.ask_picker.specs.Telling.{BothSay};
ghost use Rattle.ask_partial.specs.Info.{info_numbers, info_reply, InfoSays, AskedCounts};

use ask_piece::blocks_in_piece;
use memory_counts::{finished, requested, writing};
use memory_fields::flushed;
use memory_layout::Shape;
use memory_records::row;
use memory_rows::find;
use types::{u16_to_u64, u32_to_usize, u64_to_u16};

// A partial as it is told: its piece, how many of its blocks are in each state, and its flags. No answer shows the place of its blocks.
#[repr(C)]
#[derive(Drop)]
pub struct PieceInfo {
    pub index: usize,
    pub finished: u16,
    pub passed_hash_check: bool,
    pub writing: u16,
    pub locked: bool,
    pub requested: u16,
    pub hashing: bool,
}

// The partial of row k.
pub fn info_at(rows: &[u32], counts: &[u16], k: usize) -> PieceInfo
    requires k_bound { (k < 512) × (length rows.now ≡ 1536) }
    requires counts_len { length counts.now ≡ 1536 }
    ensures { InfoSays rows.now counts.now k result }
{
    let d = row(rows, k);
    PieceInfo {
        index: u32_to_usize(d.index),
        finished: finished(counts, k),
        passed_hash_check: d.flags % 2 == 1,
        writing: writing(counts, k),
        locked: d.flags / 2 % 2 == 1,
        requested: requested(counts, k),
        hashing: d.flags / 4 % 2 == 1,
    }
}

// A piece without a partial: all blocks of a flushed one are finished.
fn unopened(words: &[u64], cells: &[u16], s: Shape, i: usize) -> PieceInfo
    requires stands_beside { StandsBeside s words.now cells.now }
    requires i_lt_pieces { i < s.pieces }
    ensures { BothSay s words.now cells.now (λ d. info_of d i none) (info_numbers result) }
{
    let mut blocks = 0;
    if flushed(cells, s, i) {
        blocks = u64_to_u16(blocks_in_piece(words, s, i));
    }
    PieceInfo {
        index: i,
        finished: blocks,
        passed_hash_check: false,
        writing: 0,
        locked: false,
        requested: 0,
        hashing: false,
    }
}

pub fn piece_info(
    words: &[u64],
    cells: &[u16],
    rows: &[u32],
    live: usize,
    counts: &[u16],
    s: Shape,
    i: usize,
) -> PieceInfo
    requires asked_counts { AskedCounts s live rows.now counts.now words.now cells.now }
    requires i_lt_pieces { i < s.pieces }
    ensures { info_reply result ≡ reply_piece (picker_in live rows.now words.now cells.now) i piece_info }
{
    let Some(k) = find(rows, live, i) else {
        return unopened(words, cells, s, i);
    };
    info_at(rows, counts, k)
}

// Whether every block is being written or on disk.
pub fn is_piece_finished(
    words: &[u64],
    cells: &[u16],
    rows: &[u32],
    live: usize,
    counts: &[u16],
    s: Shape,
    i: usize,
) -> bool
    requires asked_counts { AskedCounts s live rows.now counts.now words.now cells.now }
    requires i_lt_pieces { i < s.pieces }
    ensures { flag result
        ≡ reply_piece (picker_in live rows.now words.now cells.now) i is_piece_finished }
{
    let Some(k) = find(rows, live, i) else {
        return flushed(cells, s, i);
    };
    let there = u16_to_u64(finished(counts, k)) + u16_to_u64(writing(counts, k));
    blocks_in_piece(words, s, i) <= there
}
