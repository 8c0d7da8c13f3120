// Pieces of which nothing is wanted any more, from both ends.
ghost use Rattle.std.specs.Prelude.{◌<◌, ◌≤◌};
ghost use Rattle.model.specs.State.{piece_at};
ghost use Rattle.model.specs.change.Changes.{flushed_or_filtered, cursor_from, reverse_from};
ghost use Rattle.memory_layout.specs.Bounds.{CellsSpan};
ghost use Rattle.memory_fields.specs.Reading.{CellsSay};

use memory_fields::{flushed, priority};
use memory_layout::Shape;

// Nothing of piece i is wanted any more.
pub fn flushed_or_filtered(cells: &[u16], s: Shape, i: usize) -> bool
    requires cells_span { CellsSpan s cells.now }
    requires i_lt_pieces { i < s.pieces }
    ensures { CellsSay s cells.now (λ d. flushed_or_filtered (piece_at d i)) result }
{
    flushed(cells, s, i) | (priority(cells, s, i) == 0)
}

// The first piece from i on that is still wanted, or the number of pieces.
pub fn cursor_from(cells: &[u16], s: Shape, i: usize) -> usize
    requires cells_span { CellsSpan s cells.now }
    requires i_le_pieces { i ≤ s.pieces }
    ensures { CellsSay s cells.now (λ d. cursor_from d i) result }
{
    for k in i..s.pieces {
        if !flushed_or_filtered(cells, s, k) {
            return k;
        }
    }
    s.pieces
}

// One past the last piece below i that is still wanted, or 0.
pub fn reverse_from(cells: &[u16], s: Shape, i: usize) -> usize
    requires cells_span { CellsSpan s cells.now }
    requires i_le_pieces { i ≤ s.pieces }
    ensures { CellsSay s cells.now (λ d. reverse_from d i) result }
{
    for k in (0..i).rev() {
        if !flushed_or_filtered(cells, s, k) {
            return k + 1;
        }
    }
    0
}
