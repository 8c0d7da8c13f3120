// Partials locked and passed.
ghost use Rattle.std.specs.Prelude.{◌≡◌, true, ◌≤◌, ◌<◌, length};
ghost use Rattle.model.specs.change.Changes.{lock_piece, piece_passed};
ghost use Rattle.memory_records.specs.Records.{rising_from};
ghost use Rattle.memory_records.specs.Rows.{records_in};
ghost use Rattle.change_tally.specs.RowsStanding.{RowsStand};
ghost use Rattle.change_flags.specs.Flagging.{RowsChanged, EditAlone};
ghost use Rattle.link_lists.specs.Lending.{shaped};
ghost use Rattle.link_outcomes.specs.Outcomes.{edit_named};

use link_lists::Geometry;
use link_outcomes::{Outcome, told};
use memory_layout::Shape;

#[unsafe(no_mangle)]
pub extern "C" fn ch_lock_piece(rows: &[u32], live: usize, i: usize) -> Outcome
    requires live_bound { (live ≤ 512) × (length rows.now ≡ 1536) }
    requires rows_value { rising_from 0 (records_in live rows.now) ≡ true }
    ensures { EditAlone (lock_piece i) live rows.now (edit_named result) }
{
    let edit = change_flags::lock_piece(rows, live, i);
    told(true, 0, edit)
}

#[unsafe(no_mangle)]
pub extern "C" fn ch_piece_passed(
    words: &mut [u64],
    cells: &mut [u16],
    rows: &[u32],
    live: usize,
    counts: &[u16],
    g: Geometry,
    i: usize,
) -> Outcome
    requires rows_stand { RowsStand (shaped g.pieces g.blocks g.places) live rows.now counts.now words.old cells.old }
    requires i_lt_pieces { i < g.pieces }
    ensures { RowsChanged (shaped g.pieces g.blocks g.places) (piece_passed i) live rows.now
        words.old cells.old (edit_named result) words.new cells.new }
{
    let s = Shape::from(g);
    let edit = change_flags::piece_passed(words, cells, rows, live, counts, s, i);
    told(true, 0, edit)
}
