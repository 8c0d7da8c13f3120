// Pieces, which stand ten bytes apart: pad bytes as words from v on; peer count, state, priority and flushed as cells from x, y, z
// and t on.
ghost use Rattle.std.specs.Prelude.{◌≡◌, ◌+◌, ◌*◌, ◌≤◌, length};
ghost use Rattle.image_lay.specs.Laid.{fields_at, Laid, LaidFour};
ghost use Rattle.image_lay.specs.Quads.{Filled};
ghost use Rattle.image_lay_pieces.specs.Quads.{PieceQuad, PieceQuads};

use image_bytes::{read1, read2, read4};
use image_lay::lay_part;
use types::{u64_to_u16, u64_to_usize, usize_to_u32};

// State, priority and flushed of the piece at `at` in one number, below the byte before them: so the compiler loads four bytes at once.
fn piece_quad(bytes: &[u8], at: usize) -> u32
    requires { at + 6 ≤ length bytes.now }
    ensures { PieceQuad at bytes.now result }
{
    let high = read1(bytes, at + 2) * 256 + read1(bytes, at + 3);
    let low = read1(bytes, at + 4) * 256 + read1(bytes, at + 5);
    usize_to_u32(u64_to_usize(high * 65536 + low))
}

// Those numbers of each piece, pad bytes and peer counts.
fn take_pieces(
    bytes: &[u8],
    start: usize,
    many: usize,
    words: &mut [u64],
    v: usize,
    cells: &mut [u16],
    x: usize,
    quads: &mut [u32],
)
    requires many_in_bounds { (start + 10 * many ≤ length bytes.now) × (v + many ≤ length words.old) }
    requires many_in_bounds_2 { (x + many ≤ length cells.old) × (many ≤ length quads.old) }
    ensures pads { Laid v many (fields_at (start + 6) 10 4 bytes.now) words.old words.new }
    ensures counts { Laid x many (fields_at (start + 1) 10 2 bytes.now) cells.old cells.new }
    ensures others { Filled many (PieceQuads start bytes.now) quads.old quads.new }
{
    for j in 0..many {
        let at = start + 10 * j;
        words[v + j] = read4(bytes, at + 6);
        cells[x + j] = u64_to_u16(read2(bytes, at + 1));
        quads[j] = piece_quad(bytes, at);
    }
}

// 128 pieces: three numbers of each as one in `quads`, of which the compiler then takes many at once.
fn lay_stretch(
    bytes: &[u8],
    start: usize,
    words: &mut [u64],
    v: usize,
    cells: &mut [u16],
    x: usize,
    y: usize,
    z: usize,
    t: usize,
    quads: &mut [u32],
)
    requires start_in_bounds { (start + 1280 ≤ length bytes.now) × (v + 128 ≤ length words.old) × (length quads.old ≡ 128) }
    requires x_bound { (x + 128 ≤ y) × (y + 128 ≤ z) × (z + 128 ≤ t) × (t + 128 ≤ length cells.old) }
    ensures pads { Laid v 128 (fields_at (start + 6) 10 4 bytes.now) words.old words.new }
    ensures others { LaidFour x y z t 128 (fields_at (start + 1) 10 2 bytes.now)
        (fields_at (start + 3) 10 1 bytes.now) (fields_at (start + 4) 10 1 bytes.now)
        (fields_at (start + 5) 10 1 bytes.now) cells.old cells.new }
    ensures kept { length quads.new ≡ 128 }
{
    take_pieces(bytes, start, 128, words, v, cells, x, quads);
    lay_part(quads, 128, 65536, 256, cells, y);
    lay_part(quads, 128, 256, 256, cells, z);
    lay_part(quads, 128, 1, 256, cells, t);
}

// All five numbers of a piece in one turn.
fn lay_each(
    bytes: &[u8],
    start: usize,
    many: usize,
    words: &mut [u64],
    v: usize,
    cells: &mut [u16],
    x: usize,
    y: usize,
    z: usize,
    t: usize,
)
    requires many_in_bounds { (start + 10 * many ≤ length bytes.now) × (v + many ≤ length words.old) }
    requires many_bound { (x + many ≤ y) × (y + many ≤ z) × (z + many ≤ t) × (t + many ≤ length cells.old) }
    ensures pads { Laid v many (fields_at (start + 6) 10 4 bytes.now) words.old words.new }
    ensures others { LaidFour x y z t many (fields_at (start + 1) 10 2 bytes.now)
        (fields_at (start + 3) 10 1 bytes.now) (fields_at (start + 4) 10 1 bytes.now)
        (fields_at (start + 5) 10 1 bytes.now) cells.old cells.new }
{
    for j in 0..many {
        let at = start + 10 * j;
        words[v + j] = read4(bytes, at + 6);
        cells[x + j] = u64_to_u16(read2(bytes, at + 1));
        cells[y + j] = u64_to_u16(read1(bytes, at + 3));
        cells[z + j] = u64_to_u16(read1(bytes, at + 4));
        cells[t + j] = u64_to_u16(read1(bytes, at + 5));
    }
}

// `many` pieces from `start` on: 128 at a time, and what is left behind them one by one.
pub fn lay_pieces(
    bytes: &[u8],
    start: usize,
    many: usize,
    words: &mut [u64],
    v: usize,
    cells: &mut [u16],
    x: usize,
    y: usize,
    z: usize,
    t: usize,
)
    requires many_in_bounds { (start + 10 * many ≤ length bytes.now) × (v + many ≤ length words.old) }
    requires many_bound { (x + many ≤ y) × (y + many ≤ z) × (z + many ≤ t) × (t + many ≤ length cells.old) }
    ensures pads { Laid v many (fields_at (start + 6) 10 4 bytes.now) words.old words.new }
    ensures others { LaidFour x y z t many (fields_at (start + 1) 10 2 bytes.now)
        (fields_at (start + 3) 10 1 bytes.now) (fields_at (start + 4) 10 1 bytes.now)
        (fields_at (start + 5) 10 1 bytes.now) cells.old cells.new }
{
    let mut quads = [0u32; 128];
    let stretches = many / 128;
    for k in 0..stretches {
        let j = 128 * k;
        let at = start + 10 * j;
        lay_stretch(
            bytes,
            at,
            words,
            v + j,
            cells,
            x + j,
            y + j,
            z + j,
            t + j,
            &mut quads,
        );
    }
    let j = 128 * stretches;
    let at = start + 10 * j;
    lay_each(
        bytes,
        at,
        many - j,
        words,
        v + j,
        cells,
        x + j,
        y + j,
        z + j,
        t + j,
    );
}
