// The numbers of one column one after another, lent as a slice of their own.
ghost use Rattle.std.specs.Prelude.{◌<◌, ◌≤◌};
ghost use Rattle.memory_layout.specs.Bounds.{WordsSpan, CellsSpan, WordColumn, CellColumn, BlockColumn};

use crate::offsets::block_start;
use crate::shape::Shape;

// The pad bytes of all pieces.
pub fn pad_column(words: &[u64], s: Shape) -> &[u64]
    requires { WordsSpan s words.now }
    ensures { WordColumn words.now s.pieces 0 result.now }
{
    let start = 16;
    let end = start + s.pieces;
    &words[start..end]
}

// All places of the list, those behind its length too.
pub fn list_column(words: &[u64], s: Shape) -> &[u64]
    requires { WordsSpan s words.now }
    ensures { WordColumn words.now s.pieces 1 result.now }
{
    let start = 16 + s.pieces;
    let end = start + s.pieces;
    &words[start..end]
}

// Cell column f of all pieces.
pub fn piece_column(cells: &[u16], s: Shape, f: usize) -> &[u16]
    requires { (CellsSpan s cells.now) × (f < 4) }
    ensures { CellColumn cells.now s.pieces f result.now }
{
    let n = s.pieces;
    let start = f * n;
    let end = start + n;
    &cells[start..end]
}

// Cell column f of the first blocks of place p.
pub fn block_column(cells: &[u16], s: Shape, f: usize, p: usize, many: usize) -> &[u16]
    requires cells_span { CellsSpan s cells.now }
    requires f_bound { (f < 3) × (p < s.places) × (many ≤ s.blocks) }
    ensures { BlockColumn cells.now s f p many result.now }
{
    let start = block_start(s, f, p);
    let end = start + many;
    &cells[start..end]
}
