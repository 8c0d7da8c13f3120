// The cells of each kind, read and stored: four columns of the pieces, three of the blocks.
ghost use Rattle.std.specs.Prelude.{◌≡◌, ◌<◌, set};
ghost use Rattle.memory_layout.specs.Offsets.{piece_cell_at, block_cell_at};
ghost use Rattle.memory_layout.specs.Decode.{piece_cell, block_cell};
ghost use Rattle.memory_layout.specs.Bounds.{CellsSpan};

use crate::offsets::{block_cell_at, piece_cell_at};
use crate::shape::Shape;

// Column f of piece i: 0 peer count, 1 state, 2 priority, 3 flushed.
pub fn piece_cell(cells: &[u16], s: Shape, f: usize, i: usize) -> u16
    requires cells_span { CellsSpan s cells.now }
    requires f_bound { (f < 4) × (i < s.pieces) }
    ensures { result ≡ piece_cell cells.now s.pieces f i }
{
    let at = piece_cell_at(s, f, i);
    cells[at]
}

pub fn set_piece_cell(cells: &mut [u16], s: Shape, f: usize, i: usize, v: u16)
    requires cells_span { CellsSpan s cells.old }
    requires f_bound { (f < 4) × (i < s.pieces) }
    ensures { cells.new ≡ set cells.old (piece_cell_at s.pieces f i) v }
{
    let at = piece_cell_at(s, f, i);
    cells[at] = v;
}

// Column f of block j of place p: 0 state, 1 num_peers, 2 has-peer.
pub fn block_cell(cells: &[u16], s: Shape, f: usize, p: usize, j: usize) -> u16
    requires cells_span { CellsSpan s cells.now }
    requires f_bound { (f < 3) × (p < s.places) × (j < s.blocks) }
    ensures { result ≡ block_cell cells.now s.pieces s.blocks f p j }
{
    let at = block_cell_at(s, f, p, j);
    cells[at]
}

pub fn set_block_cell(cells: &mut [u16], s: Shape, f: usize, p: usize, j: usize, v: u16)
    requires cells_span { CellsSpan s cells.old }
    requires f_bound { (f < 3) × (p < s.places) × (j < s.blocks) }
    ensures { cells.new ≡ set cells.old (block_cell_at s.pieces s.blocks f p j) v }
{
    let at = block_cell_at(s, f, p, j);
    cells[at] = v;
}
