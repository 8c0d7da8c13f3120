// Many blocks: state, num_peers and has-peer of each are first put into one number, of which the compiler then takes many at once.
ghost use Rattle.std.specs.Prelude.{◌+◌, ◌*◌, ◌≤◌, length};
ghost use Rattle.image_lay.specs.Laid.{fields_at, Laid, LaidThree};
ghost use Rattle.image_lay.specs.Quads.{Filled};
ghost use Rattle.image_lay_blocks.specs.Quads.{BlockQuad, BlockQuads};

use image_bytes::{read1, read2, read8};
use image_lay::lay_part;
use types::{u64_to_usize, usize_to_u32};

// Those numbers of the block at `at`.
fn block_quad(bytes: &[u8], at: usize) -> u32
    requires { at + 5 ≤ length bytes.now }
    ensures { BlockQuad at bytes.now result }
{
    let quad = read1(bytes, at + 1) * 16777216
        + (read2(bytes, at + 2) * 256 + read1(bytes, at + 4));
    usize_to_u32(u64_to_usize(quad))
}

// Those of each block, and the peers as words from v on.
fn take_blocks(
    bytes: &[u8],
    start: usize,
    many: usize,
    words: &mut [u64],
    v: usize,
    quads: &mut [u32],
)
    requires { (start + 13 * many ≤ length bytes.now) × (v + many ≤ length words.old) × (many ≤ length quads.old) }
    ensures peers { Laid v many (fields_at (start + 5) 13 8 bytes.now) words.old words.new }
    ensures others { Filled many (BlockQuads start bytes.now) quads.old quads.new }
{
    for j in 0..many {
        let at = start + 13 * j;
        words[v + j] = read8(bytes, at + 5);
        quads[j] = block_quad(bytes, at);
    }
}

pub fn lay_many(
    bytes: &[u8],
    start: usize,
    many: usize,
    words: &mut [u64],
    v: usize,
    cells: &mut [u16],
    x: usize,
    y: usize,
    z: usize,
)
    requires many_in_bounds { (start + 13 * many ≤ length bytes.now) × (v + many ≤ length words.old) }
    requires many_bound { many ≤ 256 }
    requires many_bound_2 { (x + many ≤ y) × (y + many ≤ z) × (z + many ≤ length cells.old) }
    ensures peers { Laid v many (fields_at (start + 5) 13 8 bytes.now) words.old words.new }
    ensures others { LaidThree x y z many (fields_at (start + 1) 13 1 bytes.now)
        (fields_at (start + 2) 13 2 bytes.now) (fields_at (start + 4) 13 1 bytes.now)
        cells.old cells.new }
{
    let mut quads = [0u32; 256];
    take_blocks(bytes, start, many, words, v, &mut quads);
    lay_part(&quads, many, 16777216, 256, cells, x);
    lay_part(&quads, many, 256, 65536, cells, y);
    lay_part(&quads, many, 1, 256, cells, z);
}
