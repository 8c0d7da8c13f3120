// Blocks, which stand thirteen bytes apart, laid out as columns of buffers.
#![tactic(auto)]

mod quads;

ghost use Rattle.std.specs.Prelude.{◌+◌, ◌*◌, ◌≤◌, length};
ghost use Rattle.image_lay.specs.Laid.{fields_at, Laid, LaidThree};

use crate::quads::lay_many;
use image_bytes::{read1, read2, read8};
use types::u64_to_u16;

// All four numbers of a block in one turn: column by column the compiler takes many blocks at once, byte by byte, which is slower.
fn lay_each(
    bytes: &[u8],
    start: usize,
    many: usize,
    words: &mut [u64],
    v: usize,
    cells: &mut [u16],
    x: usize,
    y: usize,
    z: usize,
)
    requires many_in_bounds { (start + 13 * many ≤ length bytes.now) × (v + many ≤ length words.old) }
    requires many_bound { (x + many ≤ y) × (y + many ≤ z) × (z + many ≤ length cells.old) }
    ensures peers { Laid v many (fields_at (start + 5) 13 8 bytes.now) words.old words.new }
    ensures others { LaidThree x y z many (fields_at (start + 1) 13 1 bytes.now)
        (fields_at (start + 2) 13 2 bytes.now) (fields_at (start + 4) 13 1 bytes.now)
        cells.old cells.new }
{
    for j in 0..many {
        let at = start + 13 * j;
        words[v + j] = read8(bytes, at + 5);
        cells[x + j] = u64_to_u16(read1(bytes, at + 1));
        cells[y + j] = u64_to_u16(read2(bytes, at + 2));
        cells[z + j] = u64_to_u16(read1(bytes, at + 4));
    }
}

// `many` blocks from `start` on: their peers as words from v on; state, num_peers and has-peer as cells from x, y and z on.
pub fn lay_blocks(
    bytes: &[u8],
    start: usize,
    many: usize,
    words: &mut [u64],
    v: usize,
    cells: &mut [u16],
    x: usize,
    y: usize,
    z: usize,
)
    requires many_in_bounds { (start + 13 * many ≤ length bytes.now) × (v + many ≤ length words.old) }
    requires many_bound { (x + many ≤ y) × (y + many ≤ z) × (z + many ≤ length cells.old) }
    ensures peers { Laid v many (fields_at (start + 5) 13 8 bytes.now) words.old words.new }
    ensures others { LaidThree x y z many (fields_at (start + 1) 13 1 bytes.now)
        (fields_at (start + 2) 13 2 bytes.now) (fields_at (start + 4) 13 1 bytes.now)
        cells.old cells.new }
{
    if (many < 64) | (256 < many) {
        lay_each(bytes, start, many, words, v, cells, x, y, z);
    } else {
        lay_many(bytes, start, many, words, v, cells, x, y, z);
    }
}
