// The direction of a piece in lent memory: under REVERSE a piece turns reverse, without it a reverse piece turns back. Steps of a change.
#![tactic(auto)]

ghost use Rattle.std.specs.Prelude.{◌≡◌, ◌&&◌, ◌≤◌, ◌<◌, eqb, ltb, length};
ghost use Rattle.model.specs.change.Changes.{set_direction, unreverse_piece};
ghost use Rattle.change_steps.specs.Working.{WorksBeside, Goes};
ghost use Rattle.change_direction.specs.Turning.{MadeReverse};

use change_state::{queue_at, queue_number};
use memory_head_stores::mark_dirty;
use memory_layout::Shape;
use memory_ranks::rank_at;
use memory_update::update;
use types::DownloadQueue;

// A piece that was in no bucket gets one.
fn gains_bucket(old: u16, new: u16) -> bool
    ensures { result ≡ (eqb old 0 && ltb 0 new) }
{
    (old == 0) & (0 < new)
}

// The piece turned reverse or back, and the list mended. One that gets a bucket by it is not put into the list: the list is dirty.
// Answers the number of the next draw, as all that follow.
pub fn set_direction(
    words: &mut [u64],
    cells: &mut [u16],
    s: Shape,
    i: usize,
    q: DownloadQueue,
    draws: &[u32],
    used: usize,
) -> usize
    requires works_beside { WorksBeside s words.old cells.old }
    requires i_lt_pieces { i < s.pieces }
    requires used_in_bounds { used ≤ length draws.now }
    ensures { Goes s (set_direction draws.now i q) words.old cells.old used
        words.new cells.new result }
{
    let old = rank_at(words, cells, s, i);
    let n = queue_number(q);
    memory_piece_stores::set_state(cells, s, i, n);
    let new = rank_at(words, cells, s, i);
    if gains_bucket(old, new) {
        mark_dirty(words, s);
        return used;
    }
    update(words, cells, s, i, old, draws, used)
}

// Under REVERSE a piece without a requested block, of which there are so many, turns reverse.
pub fn make_piece_reverse(
    words: &mut [u64],
    cells: &mut [u16],
    s: Shape,
    i: usize,
    back: bool,
    requested: u16,
    draws: &[u32],
    used: usize,
) -> usize
    requires works_beside { WorksBeside s words.old cells.old }
    requires i_lt_pieces { i < s.pieces }
    requires used_in_bounds { used ≤ length draws.now }
    ensures { MadeReverse s draws.now i back requested words.old cells.old used
        words.new cells.new result }
{
    let q = queue_at(cells, s, i);
    if back & !q.is_reverse() & (requested == 0) {
        return set_direction(words, cells, s, i, q.make_reverse(), draws, used);
    }
    used
}

// Without REVERSE a reverse piece turns back.
pub fn unreverse_piece(
    words: &mut [u64],
    cells: &mut [u16],
    s: Shape,
    i: usize,
    back: bool,
    draws: &[u32],
    used: usize,
) -> usize
    requires works_beside { WorksBeside s words.old cells.old }
    requires i_lt_pieces { i < s.pieces }
    requires used_in_bounds { used ≤ length draws.now }
    ensures { Goes s (unreverse_piece draws.now i back) words.old cells.old used
        words.new cells.new result }
{
    let q = queue_at(cells, s, i);
    if !back & q.is_reverse() {
        return set_direction(words, cells, s, i, q.unreverse(), draws, used);
    }
    used
}
