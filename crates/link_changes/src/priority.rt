// A piece's priority set.
ghost use Rattle.std.specs.Prelude.{◌≤◌, ◌<◌, length};
ghost use Rattle.model.specs.State.{min_draws, max_priority};
ghost use Rattle.memory_records.specs.Rows.{records_in};
ghost use Rattle.change_tally.specs.RowsStanding.{RowsStand};
ghost use Rattle.change_priority.specs.Saying.{Said};
ghost use Rattle.link_lists.specs.Lending.{shaped};
ghost use Rattle.link_changes.specs.Outcomes.{priority_set};

use link_lists::Geometry;
use link_outcomes::{Outcome, told};
use memory_layout::Shape;
use memory_records::Edit;

#[unsafe(no_mangle)]
pub extern "C" fn ch_set_piece_priority(
    words: &mut [u64],
    cells: &mut [u16],
    rows: &[u32],
    live: usize,
    counts: &[u16],
    g: Geometry,
    i: usize,
    priority: u16,
    draws: &[u32],
) -> Outcome
    requires rows_stand { RowsStand (shaped g.pieces g.blocks g.places) live rows.now counts.now words.old cells.old }
    requires i_lt_pieces { (i < g.pieces) × (priority ≤ max_priority) }
    requires min_draws_in_bounds { min_draws ≤ length draws.now }
    ensures { Said (shaped g.pieces g.blocks g.places) draws.now i priority (records_in live rows.now)
        words.old cells.old words.new cells.new (priority_set result) }
{
    let s = Shape::from(g);
    let r = change_priority::set_piece_priority(
        words, cells, s, rows, live, counts, i, priority, draws,
    );
    told(r.turned, r.used, Edit::Keep)
}
