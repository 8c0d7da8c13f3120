// Lists of a number for each piece, written into lent places; what lies behind the answer is not touched. A number has 16 bits, as the
// cells that it comes from.
ghost use Rattle.std.specs.Prelude.{◌+◌, ◌≤◌, ◌<◌, length};
ghost use Rattle.model.specs.ask.Questions.{list_picker, get_availability_vec, piece_priorities};
ghost use Rattle.memory_layout.specs.Bounds.{CellsSpan};
ghost use Rattle.memory_layout.specs.Standing.{StandsBeside};
ghost use Rattle.ask_columns.specs.Filled.{ColumnFits, ColumnFilled, Told};

use memory_fields::seeds;
use memory_layout::{Shape, piece_cell};
use types::u64_to_u16;

// Cell column f, the same number added to each.
fn fill(cells: &[u16], s: Shape, f: usize, more: u16, out: &mut [u16])
    requires cells_span { CellsSpan s cells.now }
    requires f_bound { (f < 4) × (s.pieces ≤ length out.old) }
    requires column_fits { ColumnFits cells.now s.pieces f more }
    ensures { ColumnFilled cells.now s.pieces f more s.pieces out.old out.new }
{
    for i in 0..s.pieces {
        out[i] = piece_cell(cells, s, f, i) + more;
    }
}

// The peers of each piece with the seeds.
pub fn get_availability_vec(words: &[u64], cells: &[u16], s: Shape, out: &mut [u16])
    requires stands_beside { StandsBeside s words.now cells.now }
    requires pieces_in_bounds { s.pieces ≤ length out.old }
    ensures { Told s words.now cells.now (λ d. list_picker d get_availability_vec)
        out.old out.new }
{
    let more = u64_to_u16(seeds(words, s));
    fill(cells, s, 0, more, out);
}

pub fn piece_priorities(words: &[u64], cells: &[u16], s: Shape, out: &mut [u16])
    requires stands_beside { StandsBeside s words.now cells.now }
    requires pieces_in_bounds { s.pieces ≤ length out.old }
    ensures { Told s words.now cells.now (λ d. list_picker d piece_priorities)
        out.old out.new }
{
    fill(cells, s, 2, 0, out);
}
