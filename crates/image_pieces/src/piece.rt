// The record of a piece.
ghost use Rattle.std.specs.Prelude.{◌≡◌, ◌≤◌, ◌<◌};
ghost use Rattle.image_pieces.specs.Pieces.{piece_test, PieceJudged};

use image_bytes::{read1, read2, read4};
use image_records::{body_of, stands};

// The state by its number.
#[derive(Drop)]
pub struct Piece {
    pub peer_count: u64,
    pub state: u64,
    pub priority: u64,
    pub flushed: bool,
    pub pad_bytes: u64,
}

// Each field in its range, where the piece has `long` bytes; a flushed piece is Open.
fn piece_ok(
    count: u64,
    state: u64,
    priority: u64,
    flushed: u64,
    pad: u64,
    seeds: u64,
    long: u64,
) -> bool
    requires { (count < 65536) × (seeds ≤ 1000) }
    ensures { result ≡ piece_test count state priority flushed pad seeds long }
{
    (state <= 6)
        & (flushed <= 1)
        & (count + seeds <= 1000)
        & (priority <= 7)
        & ((flushed != 1) | (state == 4))
        & (pad <= long)
}

// A piece of `long` bytes.
pub fn read_piece(bytes: &[u8], at: usize, seeds: u64, long: u64) -> Option<Piece>
    requires { seeds ≤ 1000 }
    ensures { PieceJudged seeds long at bytes.now result }
{
    if !stands(bytes, at, 2) {
        return None;
    }
    let body = body_of(bytes, at, 2);
    let count = read2(body, 0);
    let state = read1(body, 2);
    let priority = read1(body, 3);
    let flushed = read1(body, 4);
    let pad = read4(body, 5);
    if piece_ok(count, state, priority, flushed, pad, seeds, long) {
        return Some(Piece {
            peer_count: count,
            state: state,
            priority: priority,
            flushed: flushed == 1,
            pad_bytes: pad,
        });
    }
    None
}
