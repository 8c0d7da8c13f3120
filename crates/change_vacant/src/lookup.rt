// The partial of a piece that a mark may have to open.
ghost use Rattle.std.specs.Prelude.{◌<◌};
ghost use Rattle.memory_rows.specs.Lookup.{FoundIn};
ghost use Rattle.change_vacant.specs.Marks.{RowsBeside};

use memory_fields::state;
use memory_layout::Shape;
use memory_rows::find;
use types::DownloadQueue;

// An Open piece has none, so that nothing is sought for it. This relies on a well-formed picker: a mark asks before it stores
// anything.
pub fn partial_of(cells: &[u16], rows: &[u32], live: usize, s: Shape, i: usize) -> Option<usize>
    requires rows_beside { RowsBeside s live rows.now cells.now }
    requires i_lt_pieces { i < s.pieces }
    ensures { FoundIn live rows.now i result }
{
    if state(cells, s, i) == DownloadQueue::Open as u16 {
        return None;
    }
    find(rows, live, i)
}
