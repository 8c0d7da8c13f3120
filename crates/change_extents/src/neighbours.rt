// The other pieces of a piece's extent: whether they make it worth recording. One pass over the extent.
ghost use Rattle.std.specs.Prelude.{◌||◌, ◌<◌, ◌≤◌};
ghost use Rattle.model.specs.State.{extent_blocks};
ghost use Rattle.model.specs.change.Changes.{worth_recording};
ghost use Rattle.memory_layout.specs.Bounds.{CellsSpan};
ghost use Rattle.memory_fields.specs.Reading.{CellsSay};
ghost use Rattle.change_extents.specs.Neighbours.{other_priority, unflushed_other, worth_among};

use geometry_needs::{extent_for, extent_pieces};
use memory_fields::{flushed, priority};
use memory_layout::Shape;
use types::{PieceIndex, u64_to_usize, usize_to_u64};

// Piece k is another than i, and of another priority.
fn other_priority(cells: &[u16], s: Shape, i: usize, k: usize) -> bool
    requires cells_span { CellsSpan s cells.now }
    requires i_lt_pieces { (i < s.pieces) × (k < s.pieces) }
    ensures { CellsSay s cells.now (λ d. other_priority d i k) result }
{
    (k != i) & (priority(cells, s, k) != priority(cells, s, i))
}

// A piece that is not flushed was met, or piece k is one, and another than i.
fn unflushed_met(cells: &[u16], s: Shape, i: usize, k: usize, met: bool) -> bool
    requires cells_span { CellsSpan s cells.now }
    requires k_lt_pieces { k < s.pieces }
    ensures { CellsSay s cells.now (λ d. met || unflushed_other d i k) result }
{
    met | ((k != i) & !flushed(cells, s, k))
}

// The pieces from `begin` up to `end`, but i, have i's priority, and not all are flushed.
fn worth_among(cells: &[u16], s: Shape, i: usize, begin: usize, end: usize) -> bool
    requires cells_span { CellsSpan s cells.now }
    requires i_lt_pieces { (i < s.pieces) × (end ≤ s.pieces) }
    ensures { CellsSay s cells.now (λ d. worth_among d i begin end) result }
{
    let mut met = false;
    for k in begin..end {
        if other_priority(cells, s, i, k) {
            return false;
        }
        met = unflushed_met(cells, s, i, k, met);
    }
    met
}

// The other pieces of i's extent have i's priority, and not all are flushed.
pub fn worth_recording(cells: &[u16], s: Shape, i: usize) -> bool
    requires cells_span { CellsSpan s cells.now }
    requires i_lt_pieces { (i < s.pieces) × (1 ≤ s.blocks) × (s.blocks < extent_blocks) }
    ensures { CellsSay s cells.now (λ d. worth_recording d i) result }
{
    let b = usize_to_u64(s.blocks);
    let e = extent_for(b, PieceIndex::at(i));
    let pieces = extent_pieces(usize_to_u64(s.pieces), b, e);
    worth_among(
        cells,
        s,
        i,
        u64_to_usize(pieces.begin),
        u64_to_usize(pieces.end),
    )
}
