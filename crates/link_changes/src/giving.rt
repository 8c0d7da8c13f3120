// A block given back.
ghost use Rattle.std.specs.Prelude.{◌<◌};
ghost use Rattle.types.specs.Peer.{named_peer};
ghost use Rattle.model.specs.change.Changes.{abort_download, mark_as_canceled};
ghost use Rattle.memory_records.specs.Rows.{records_in};
ghost use Rattle.memory_layout.specs.Decode.{blocks_of};
ghost use Rattle.memory_layout.specs.Standing.{edit_records};
ghost use Rattle.change_steps.specs.Whole.{Done};
ghost use Rattle.change_tally.specs.RowsStanding.{RowsStand};
ghost use Rattle.link_lists.specs.Lending.{shaped};
ghost use Rattle.link_outcomes.specs.Outcomes.{edit_named};

use link_lists::Geometry;
use link_outcomes::{Outcome, told};
use memory_layout::Shape;

#[unsafe(no_mangle)]
pub extern "C" fn ch_abort_download(
    words: &mut [u64],
    cells: &mut [u16],
    rows: &[u32],
    live: usize,
    counts: &[u16],
    g: Geometry,
    i: usize,
    j: usize,
    has_peer: bool,
    peer: u64,
    draws: &[u32],
) -> Outcome
    requires rows_stand { RowsStand (shaped g.pieces g.blocks g.places) live rows.now counts.now words.old cells.old }
    requires i_lt_pieces { (i < g.pieces) × (j < blocks_of words.old i) }
    ensures { Done (shaped g.pieces g.blocks g.places) (abort_download draws.now i j (named_peer has_peer peer))
        (records_in live rows.now) words.old cells.old
        (edit_records (edit_named result) (records_in live rows.now))
        words.new cells.new result.used }
{
    let s = Shape::from(g);
    let given = change_giving::abort_download(
        words, cells, rows, live, counts, s, i, j, has_peer, peer, draws,
    );
    told(true, given.used, given.edit)
}

#[unsafe(no_mangle)]
pub extern "C" fn ch_mark_as_canceled(
    words: &mut [u64],
    cells: &mut [u16],
    rows: &[u32],
    live: usize,
    counts: &[u16],
    g: Geometry,
    i: usize,
    j: usize,
    has_peer: bool,
    peer: u64,
    draws: &[u32],
) -> Outcome
    requires rows_stand { RowsStand (shaped g.pieces g.blocks g.places) live rows.now counts.now words.old cells.old }
    requires i_lt_pieces { (i < g.pieces) × (j < blocks_of words.old i) }
    ensures { Done (shaped g.pieces g.blocks g.places) (mark_as_canceled draws.now i j (named_peer has_peer peer))
        (records_in live rows.now) words.old cells.old
        (edit_records (edit_named result) (records_in live rows.now))
        words.new cells.new result.used }
{
    let s = Shape::from(g);
    let given = change_giving::mark_as_canceled(
        words, cells, rows, live, counts, s, i, j, has_peer, peer, draws,
    );
    told(true, given.used, given.edit)
}
