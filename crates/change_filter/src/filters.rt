// A priority that turns from or to 0, and the cursors after it.
ghost use Rattle.std.specs.Prelude.{◌≡◌, not, ◌<◌, eqb};
ghost use Rattle.model.specs.Lists.{bit};
ghost use Rattle.memory_layout.specs.Standing.{StandsBeside};
ghost use Rattle.change_steps.specs.Whole.{Begins};
ghost use Rattle.change_filter.specs.Turning.{cursors_turned};

use change_cursors::cursors_on_filter;
use memory_fields::flushed;
use memory_layout::Shape;

// The priority turns from or to 0.
pub fn filter_changes(old: u16, new: u16) -> bool
    ensures { result ≡ not (eqb (bit (eqb new 0)) (bit (eqb old 0))) }
{
    if old == 0 {
        return new != 0;
    }
    new == 0
}

// Where the priority turns from or to 0 and the piece is not flushed, the cursors see to it.
pub fn turn_cursors(
    words: &mut [u64],
    cells: &[u16],
    s: Shape,
    i: usize,
    priority: u16,
    turned: bool,
)
    requires stands_beside { StandsBeside s words.old cells.now }
    requires i_lt_pieces { i < s.pieces }
    ensures { Begins s (cursors_turned i priority turned) words.old cells.now
        words.new cells.now 0 }
{
    if turned & !flushed(cells, s, i) {
        cursors_on_filter(words, cells, s, i, priority);
    }
}
