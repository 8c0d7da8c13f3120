// The pick record as what a pick is asked, and the program's limits.
ghost use Rattle.std.specs.Prelude.{◌≡◌, ◌&&◌, ◌%◌, ◌<◌, leb};
ghost use Rattle.model.specs.Bep3.{num_pieces, whole_piece_blocks};
ghost use Rattle.pick_job.specs.Jobs.{request_numbers};

use geometry::{blocks_per_piece, num_pieces};
use image_records::Pick;
use pick_state::PickRequest;
use types::{PickerOptions, u64_to_u16, u64_to_usize};

// A number of 64 bits.
fn lent_peer(peer: u64) -> u64
    ensures { result ≡ peer % 18446744073709551616 }
{
    peer
}

// The request of the record's numbers, with a bit for each of n pieces.
pub fn request(p: Pick, n: usize) -> PickRequest
    requires { p.options < 65536 }
    ensures { result ≡ request_numbers p n }
{
    let options = PickerOptions(u64_to_u16(p.options));
    PickRequest {
        options: options,
        wanted: u64_to_usize(p.wanted),
        contiguous: u64_to_usize(p.contiguous),
        peers: u64_to_usize(p.peers),
        has_peer: p.has_peer,
        peer: lent_peer(p.peer),
        bits: n,
    }
}

// The program's own limits: at most 64 pieces, and 16 blocks in a piece.
pub fn within_limits(total: u64, size: u64) -> bool
    ensures { result ≡ (leb (num_pieces total size) 64 && leb (whole_piece_blocks size) 16) }
{
    (num_pieces(total, size) <= 64) & (blocks_per_piece(size) <= 16)
}
