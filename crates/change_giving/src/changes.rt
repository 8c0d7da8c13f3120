// The whole changes, on the partial that the rows name.
ghost use Rattle.std.specs.Prelude.{◌<◌};
ghost use Rattle.types.specs.Peer.{named_peer};
ghost use Rattle.model.specs.change.Changes.{abort_download, mark_as_canceled};
ghost use Rattle.memory_records.specs.Rows.{records_in};
ghost use Rattle.memory_layout.specs.Decode.{blocks_of};
ghost use Rattle.memory_layout.specs.Standing.{edit_records};
ghost use Rattle.change_steps.specs.Whole.{Done, EditRoom};
ghost use Rattle.change_tally.specs.RowsStanding.{RowsStand};

use crate::blocks::{cancel_block, release_block};
use change_returns::Given;
use change_tally::standing_in;
use memory_layout::Shape;
use memory_records::Edit;
use memory_rows::find;

// The named peer no longer asks for block j of piece i. Only a requested block of a standing partial is given back.
pub fn abort_download(
    words: &mut [u64],
    cells: &mut [u16],
    rows: &[u32],
    live: usize,
    counts: &[u16],
    s: Shape,
    i: usize,
    j: usize,
    has_peer: bool,
    peer: u64,
    draws: &[u32],
) -> Given
    requires rows_stand { RowsStand s live rows.now counts.now words.old cells.old }
    requires i_lt_pieces { (i < s.pieces) × (j < blocks_of words.old i) }
    ensures change { Done s (abort_download draws.now i j (named_peer has_peer peer))
        (records_in live rows.now) words.old cells.old
        (edit_records result.edit (records_in live rows.now)) words.new cells.new result.used }
    ensures room { EditRoom s live result.edit }
{
    let Some(k) = find(rows, live, i) else {
        return Given {
            edit: Edit::Keep,
            used: 0,
        };
    };
    let d = standing_in(words, rows, counts, s, k, i);
    release_block(
        words, cells, s, i, d.place, j, d.tally, has_peer, peer, draws,
    )
}

// The write of block j of piece i, which the named peer brought, failed.
pub fn mark_as_canceled(
    words: &mut [u64],
    cells: &mut [u16],
    rows: &[u32],
    live: usize,
    counts: &[u16],
    s: Shape,
    i: usize,
    j: usize,
    has_peer: bool,
    peer: u64,
    draws: &[u32],
) -> Given
    requires rows_stand { RowsStand s live rows.now counts.now words.old cells.old }
    requires i_lt_pieces { (i < s.pieces) × (j < blocks_of words.old i) }
    ensures change { Done s (mark_as_canceled draws.now i j (named_peer has_peer peer))
        (records_in live rows.now) words.old cells.old
        (edit_records result.edit (records_in live rows.now)) words.new cells.new result.used }
    ensures room { EditRoom s live result.edit }
{
    let Some(k) = find(rows, live, i) else {
        return Given {
            edit: Edit::Keep,
            used: 0,
        };
    };
    let d = standing_in(words, rows, counts, s, k, i);
    cancel_block(
        words, cells, s, i, d.place, j, d.tally, has_peer, peer, draws,
    )
}
