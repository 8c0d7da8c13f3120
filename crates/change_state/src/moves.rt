// A piece in another state, and the list mended after it.
ghost use Rattle.std.specs.Prelude.{◌≤◌, ◌<◌, length};
ghost use Rattle.model.specs.change.Partials.{set_state, move_state};
ghost use Rattle.change_steps.specs.Working.{WorksBeside, Goes};
ghost use Rattle.change_state.specs.Numbers.{StateUpdated};

use crate::queues::{is_left, queue_at, queue_number};
use crate::states::{Tally, new_state};
use memory_fields::priority;
use memory_layout::Shape;
use memory_ranks::rank_at;
use memory_update::update;
use types::DownloadQueue;

// Answers the number of the next draw, as all that follow.
pub fn set_state(
    words: &mut [u64],
    cells: &mut [u16],
    s: Shape,
    i: usize,
    q: DownloadQueue,
    draws: &[u32],
    used: usize,
) -> usize
    requires works_beside { WorksBeside s words.old cells.old }
    requires i_lt_pieces { i < s.pieces }
    requires used_in_bounds { used ≤ length draws.now }
    ensures { Goes s (set_state draws.now i q) words.old cells.old used
        words.new cells.new result }
{
    let old = rank_at(words, cells, s, i);
    let n = queue_number(q);
    memory_piece_stores::set_state(cells, s, i, n);
    update(words, cells, s, i, old, draws, used)
}

// The piece goes from state `current` to q unless it is there, or is to be left.
fn move_state(
    words: &mut [u64],
    cells: &mut [u16],
    s: Shape,
    i: usize,
    current: DownloadQueue,
    q: DownloadQueue,
    draws: &[u32],
    used: usize,
) -> usize
    requires works_beside { WorksBeside s words.old cells.old }
    requires i_lt_pieces { i < s.pieces }
    requires used_in_bounds { used ≤ length draws.now }
    ensures { Goes s (move_state draws.now i current q) words.old cells.old used
        words.new cells.new result }
{
    if is_left(q, current) {
        return used;
    }
    set_state(words, cells, s, i, q, draws, used)
}

// The state of a piece that has a partial made that of its blocks, of which `t` has the numbers.
pub fn update_piece_state(
    words: &mut [u64],
    cells: &mut [u16],
    s: Shape,
    i: usize,
    t: Tally,
    draws: &[u32],
    used: usize,
) -> usize
    requires works_beside { WorksBeside s words.old cells.old }
    requires i_lt_pieces { i < s.pieces }
    requires used_in_bounds { used ≤ length draws.now }
    ensures { StateUpdated s draws.now i t words.old cells.old used
        words.new cells.new result }
{
    let current = queue_at(cells, s, i);
    let wanted = priority(cells, s, i);
    let q = new_state(t, wanted, current);
    move_state(words, cells, s, i, current, q, draws, used)
}
