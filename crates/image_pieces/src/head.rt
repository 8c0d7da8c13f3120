// The head of an image.
ghost use Rattle.std.specs.Prelude.{◌≡◌};
ghost use Rattle.model.specs.image.Image.{head_kind, judged, read_head};
ghost use Rattle.image_pieces.specs.Heads.{head_test, head_step};

use geometry::{num_pieces, valid_geometry};
use image_bytes::{read1, read2, read4, read8};
use image_records::{body_of, stands};

#[derive(Clone, Copy)]
pub struct Head {
    pub total: u64,
    pub size: u64,
    pub seeds: u64,
    pub cursor: u64,
    pub reverse_cursor: u64,
    pub dirty: bool,
}

// Geometry, seeds, each cursor from 0 to the number of pieces, and a flag of 0 or 1.
fn head_ok(total: u64, size: u64, seeds: u64, cursor: u64, reverse: u64, dirty: u64) -> bool
    ensures { result ≡ head_test total size seeds cursor reverse dirty }
{
    let n = num_pieces(total, size);
    (dirty <= 1) & valid_geometry(total, size) & (seeds <= 1000) & (cursor <= n) & (reverse <= n)
}

// The head, where it is well-formed.
pub fn read_head(bytes: &[u8]) -> Option<Head>
    ensures { result ≡ head_step (judged head_kind read_head bytes.now) }
{
    if !stands(bytes, 0, 1) {
        return None;
    }
    let body = body_of(bytes, 0, 1);
    let total = read8(body, 0);
    let size = read4(body, 8);
    let seeds = read2(body, 12);
    let cursor = read4(body, 14);
    let reverse = read4(body, 18);
    let dirty = read1(body, 22);
    if head_ok(total, size, seeds, cursor, reverse, dirty) {
        return Some(Head {
            total: total,
            size: size,
            seeds: seeds,
            cursor: cursor,
            reverse_cursor: reverse,
            dirty: dirty == 1,
        });
    }
    None
}
