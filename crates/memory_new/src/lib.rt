// A new picker in lent buffers, whatever they held: no seeds, cursors at both ends, a dirty list, every piece Open at the default priority.
// It has no partial, so that no record is read. What is not read (the list, the blocks of places) is left, and so is all beyond the needs.
#![tactic(auto)]

ghost use Rattle.std.specs.Prelude.{◌≡◌, true, ◌++◌, ◌*◌, ◌≤◌, length, drop};
ghost use Rattle.model.specs.State.{valid_geometry};
ghost use Rattle.memory_new.specs.Fresh.{fresh_head, FreshCells, Room, MadeNew};

use geometry::num_pieces;
use memory_layout::{Shape, shape_of};
use types::u64_to_usize;

// The number of the state Open.
const OPEN: u16 = 4;

const DEFAULT_PRIORITY: u16 = 4;

// The words of the head that are read.
fn fresh_head(words: &mut [u64], total: u64, size: u64, n: u64)
    requires { 16 ≤ length words.old }
    ensures { words.new ≡ fresh_head total size n ++ drop 9 words.old }
{
    words[0] = total;
    words[1] = size;
    words[2] = 0;
    words[3] = 0;
    words[4] = n;
    words[5] = 1;
    words[6] = 0;
    words[7] = 0;
    words[8] = 0;
}

// The columns of n pieces.
fn fresh_cells(cells: &mut [u16], n: usize)
    requires { (n ≤ 4096) × (4 * n ≤ length cells.old) }
    ensures { FreshCells n cells.old cells.new }
{
    cells[0..n].fill(0);
    cells[n..2 * n].fill(OPEN);
    cells[2 * n..3 * n].fill(DEFAULT_PRIORITY);
    cells[3 * n..4 * n].fill(0);
}

// The new picker of a geometry. The answer is its shape.
pub fn make(words: &mut [u64], cells: &mut [u16], total: u64, size: u64) -> Shape
    requires size_value { valid_geometry total size ≡ true }
    requires room { Room total size words.old cells.old }
    ensures { MadeNew result total size words.old cells.old words.new cells.new }
{
    fresh_head(words, total, size, num_pieces(total, size));
    let s = shape_of(words);
    let n = s.pieces;
    words[16..16 + n].fill(0);
    fresh_cells(cells, n);
    s
}
