// A piece's priority set, with the state of its partial after it.
ghost use Rattle.std.specs.Prelude.{◌≤◌, ◌<◌, length};
ghost use Rattle.model.specs.State.{min_draws, max_priority};
ghost use Rattle.change_tally.specs.RowsStanding.{RowsStand};
ghost use Rattle.memory_records.specs.Rows.{records_in};
ghost use Rattle.change_steps.specs.Working.{Went};
ghost use Rattle.change_priority.specs.Steps.{priority_stored, TalliesAt, TalliedAt};
ghost use Rattle.change_priority.specs.Saying.{Said};

use crate::steps::list_priority;
use change_filter::filter_changes;
use change_state::{Tally, update_piece_state};
use change_tally::tally_of;
use memory_fields::{priority as priority_at, state};
use memory_layout::Shape;
use memory_rows::find;
use types::DownloadQueue;

// Whether the priority turned from or to 0, and how many draws are used.
#[derive(Drop)]
pub struct PrioritySet {
    pub turned: bool,
    pub used: usize,
}

// The numbers of piece i's partial, if it has one.
fn tally_at(words: &[u64], s: Shape, rows: &[u32], live: usize, counts: &[u16], i: usize) -> Tally
    requires tallies_at { TalliesAt s live rows.now counts.now words.now }
    requires i_lt_pieces { i < s.pieces }
    ensures { TalliedAt s live rows.now counts.now words.now i result }
{
    match find(rows, live, i) {
        Some(k) => tally_of(words, rows, counts, s, k, i),
        None => Tally {
            blocks: 0,
            busy: 0,
            requested: 0,
            hashing: false,
        },
    }
}

// Cursors, priority and list, then the state of a partial. Answers how many draws are used.
fn store_priority(
    words: &mut [u64],
    cells: &mut [u16],
    s: Shape,
    rows: &[u32],
    live: usize,
    counts: &[u16],
    i: usize,
    priority: u16,
    turned: bool,
    draws: &[u32],
) -> usize
    requires rows_stand { RowsStand s live rows.now counts.now words.old cells.old }
    requires i_lt_pieces { (i < s.pieces) × (priority ≤ max_priority) }
    requires min_draws_in_bounds { min_draws ≤ length draws.now }
    ensures { Went s (priority_stored draws.now i priority turned) (records_in live rows.now)
        words.old cells.old 0 (records_in live rows.now) words.new cells.new result }
{
    if state(cells, s, i) == DownloadQueue::Open as u16 {
        return list_priority(words, cells, s, i, priority, turned, draws);
    }
    let t = tally_at(words, s, rows, live, counts, i);
    let used = list_priority(words, cells, s, i, priority, turned, draws);
    update_piece_state(words, cells, s, i, t, draws, used)
}

// Priority 0 to 7 for piece i; nothing moves where it has that one.
pub fn set_piece_priority(
    words: &mut [u64],
    cells: &mut [u16],
    s: Shape,
    rows: &[u32],
    live: usize,
    counts: &[u16],
    i: usize,
    priority: u16,
    draws: &[u32],
) -> PrioritySet
    requires rows_stand { RowsStand s live rows.now counts.now words.old cells.old }
    requires i_lt_pieces { (i < s.pieces) × (priority ≤ max_priority) }
    requires min_draws_in_bounds { min_draws ≤ length draws.now }
    ensures { Said s draws.now i priority (records_in live rows.now) words.old cells.old
        words.new cells.new result }
{
    let old = priority_at(cells, s, i);
    if priority == old {
        return PrioritySet {
            turned: false,
            used: 0,
        };
    }
    let turned = filter_changes(old, priority);
    let used = store_priority(
        words, cells, s, rows, live, counts, i, priority, turned, draws,
    );
    PrioritySet { turned, used }
}
