// A block asked for, brought, and on disk.
ghost use Rattle.std.specs.Prelude.{◌≡◌, false, ◌≤◌, ◌<◌, length};
ghost use Rattle.types.specs.Peer.{named_peer};
ghost use Rattle.model.specs.State.{min_draws, piece_at};
ghost use Rattle.model.specs.change.Changes.{mark_as_downloading, mark_as_writing, mark_as_finished};
ghost use Rattle.model.specs.Calls.{no_partial_left};
ghost use Rattle.memory_records.specs.Rows.{records_in};
ghost use Rattle.memory_layout.specs.Decode.{blocks_of};
ghost use Rattle.memory_layout.specs.Standing.{edit_records};
ghost use Rattle.memory_rows.specs.Lookup.{picker_in};
ghost use Rattle.change_steps.specs.Whole.{Done};
ghost use Rattle.change_tally.specs.RowsStanding.{RowsStand};
ghost use Rattle.change_vacant.specs.Marks.{MarkDone};
ghost use Rattle.link_lists.specs.Lending.{shaped};
ghost use Rattle.link_outcomes.specs.Outcomes.{edit_named};

use link_lists::Geometry;
use link_outcomes::{Outcome, told};
use memory_layout::Shape;
use types::PickerOptions;

#[unsafe(no_mangle)]
pub extern "C" fn ch_mark_as_downloading(
    words: &mut [u64],
    cells: &mut [u16],
    rows: &[u32],
    live: usize,
    counts: &[u16],
    g: Geometry,
    i: usize,
    j: usize,
    has_peer: bool,
    peer: u64,
    options: u16,
    draws: &[u32],
) -> Outcome
    requires rows_stand { RowsStand (shaped g.pieces g.blocks g.places) live rows.now counts.now words.old cells.old }
    requires i_lt_pieces { (i < g.pieces) × (j < blocks_of words.old i) }
    requires i_value { (piece_at (picker_in live rows.now words.old cells.old) i).flushed ≡ false }
    requires i_value_2 { no_partial_left (picker_in live rows.now words.old cells.old) i ≡ false }
    requires min_draws_in_bounds { min_draws ≤ length draws.now }
    ensures { MarkDone (shaped g.pieces g.blocks g.places) (mark_as_downloading draws.now i j (named_peer has_peer peer) options)
        (records_in live rows.now) words.old cells.old
        (edit_records (edit_named result) (records_in live rows.now)) words.new cells.new result.answer result.used }
{
    let s = Shape::from(g);
    let asked = PickerOptions(options);
    let m = change_marks::mark_as_downloading(
        words, cells, rows, live, counts, s, i, j, has_peer, peer, asked, draws,
    );
    told(m.answer, m.used, m.edit)
}

#[unsafe(no_mangle)]
pub extern "C" fn ch_mark_as_writing(
    words: &mut [u64],
    cells: &mut [u16],
    rows: &[u32],
    live: usize,
    counts: &[u16],
    g: Geometry,
    i: usize,
    j: usize,
    has_peer: bool,
    peer: u64,
    draws: &[u32],
) -> Outcome
    requires rows_stand { RowsStand (shaped g.pieces g.blocks g.places) live rows.now counts.now words.old cells.old }
    requires i_lt_pieces { (i < g.pieces) × (j < blocks_of words.old i) }
    requires i_value { no_partial_left (picker_in live rows.now words.old cells.old) i ≡ false }
    requires min_draws_in_bounds { min_draws ≤ length draws.now }
    ensures { MarkDone (shaped g.pieces g.blocks g.places) (mark_as_writing draws.now i j (named_peer has_peer peer))
        (records_in live rows.now) words.old cells.old
        (edit_records (edit_named result) (records_in live rows.now)) words.new cells.new result.answer result.used }
{
    let s = Shape::from(g);
    let m = change_marks::mark_as_writing(
        words, cells, rows, live, counts, s, i, j, has_peer, peer, draws,
    );
    told(m.answer, m.used, m.edit)
}

#[unsafe(no_mangle)]
pub extern "C" fn ch_mark_as_finished(
    words: &mut [u64],
    cells: &mut [u16],
    rows: &[u32],
    live: usize,
    counts: &[u16],
    g: Geometry,
    i: usize,
    j: usize,
    has_peer: bool,
    peer: u64,
    draws: &[u32],
) -> Outcome
    requires rows_stand { RowsStand (shaped g.pieces g.blocks g.places) live rows.now counts.now words.old cells.old }
    requires i_lt_pieces { (i < g.pieces) × (j < blocks_of words.old i) }
    requires i_value { no_partial_left (picker_in live rows.now words.old cells.old) i ≡ false }
    requires min_draws_in_bounds { min_draws ≤ length draws.now }
    ensures { Done (shaped g.pieces g.blocks g.places) (mark_as_finished draws.now i j (named_peer has_peer peer))
        (records_in live rows.now) words.old cells.old
        (edit_records (edit_named result) (records_in live rows.now)) words.new cells.new result.used }
{
    let s = Shape::from(g);
    let m = change_marks::mark_as_finished(
        words, cells, rows, live, counts, s, i, j, has_peer, peer, draws,
    );
    told(true, m.used, m.edit)
}
