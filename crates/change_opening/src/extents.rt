// The extent of a piece that is opened.
ghost use Rattle.std.specs.Prelude.{◌<◌};
ghost use Rattle.model.specs.Lists.{when};
ghost use Rattle.model.specs.list.Order.{no_draw};
ghost use Rattle.model.specs.change.Changes.{record_downloading_piece};
ghost use Rattle.change_steps.specs.Working.{WorksBeside};
ghost use Rattle.change_opening.specs.Opening.{Undrawn};

use change_extents::record_downloading_piece;
use memory_layout::Shape;

// It is recorded where affinity is asked.
pub fn record_if_asked(words: &mut [u64], cells: &[u16], s: Shape, i: usize, affinity: bool)
    requires works_beside { WorksBeside s words.old cells.now }
    requires i_lt_pieces { i < s.pieces }
    ensures { Undrawn s (when affinity (no_draw (record_downloading_piece i))) words.old cells.now
        words.new cells.now }
{
    if !affinity {
        return;
    }
    record_downloading_piece(words, cells, s, i);
}
