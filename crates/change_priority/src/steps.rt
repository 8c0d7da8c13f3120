// The steps of a new priority that do not look at the partials.
ghost use Rattle.std.specs.Prelude.{◌≤◌, ◌<◌, length};
ghost use Rattle.model.specs.State.{max_priority, with_piece, with_priority};
ghost use Rattle.model.specs.list.Order.{change_and_update};
ghost use Rattle.memory_layout.specs.Standing.{StandsBeside};
ghost use Rattle.change_steps.specs.Working.{WorksBeside, Goes};
ghost use Rattle.change_steps.specs.Whole.{Begins};
ghost use Rattle.change_priority.specs.Steps.{priority_listed};

use change_filter::turn_cursors;
use memory_layout::Shape;
use memory_ranks::rank_at;
use memory_update::update;

// The priority stored, and the list mended. Answers the number of the next draw.
fn set_priority(
    words: &mut [u64],
    cells: &mut [u16],
    s: Shape,
    i: usize,
    priority: u16,
    draws: &[u32],
    used: usize,
) -> usize
    requires works_beside { WorksBeside s words.old cells.old }
    requires i_lt_pieces { (i < s.pieces) × (priority ≤ max_priority) }
    requires used_in_bounds { used ≤ length draws.now }
    ensures { Goes s (change_and_update draws.now i (with_piece i (with_priority priority)))
        words.old cells.old used words.new cells.new result }
{
    let old = rank_at(words, cells, s, i);
    memory_piece_stores::set_priority(cells, s, i, priority);
    update(words, cells, s, i, old, draws, used)
}

// Cursors, then the priority and its list.
pub fn list_priority(
    words: &mut [u64],
    cells: &mut [u16],
    s: Shape,
    i: usize,
    priority: u16,
    turned: bool,
    draws: &[u32],
) -> usize
    requires stands_beside { StandsBeside s words.old cells.old }
    requires i_lt_pieces { (i < s.pieces) × (priority ≤ max_priority) }
    ensures { Begins s (priority_listed draws.now i priority turned) words.old cells.old
        words.new cells.new result }
{
    turn_cursors(words, cells, s, i, priority, turned);
    set_priority(words, cells, s, i, priority, draws, 0)
}
