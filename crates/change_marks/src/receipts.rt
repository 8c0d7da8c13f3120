// A block brought.
ghost use Rattle.std.specs.Prelude.{◌≡◌, false, ◌≤◌, ◌<◌, length};
ghost use Rattle.types.specs.Peer.{named_peer};
ghost use Rattle.model.specs.State.{min_draws};
ghost use Rattle.model.specs.change.Changes.{mark_as_writing};
ghost use Rattle.model.specs.Calls.{no_partial_left};
ghost use Rattle.memory_records.specs.Rows.{records_in};
ghost use Rattle.memory_layout.specs.Decode.{blocks_of};
ghost use Rattle.memory_layout.specs.Standing.{edit_records};
ghost use Rattle.memory_rows.specs.Lookup.{picker_in};
ghost use Rattle.change_steps.specs.Whole.{EditRoom};
ghost use Rattle.change_tally.specs.RowsStanding.{RowsStand};
ghost use Rattle.change_vacant.specs.Marks.{MarkDone};

use change_receipts::write_block;
use change_tally::standing_in;
use change_vacant::{Marking, open_arrived, partial_of};
use memory_blocks::BlockInfo;
use memory_layout::Shape;
use memory_records::Edit;
use types::BlockState;

// The named peer brought block j of piece i, which is being written. A piece without a partial is opened, unless it is flushed.
pub fn mark_as_writing(
    words: &mut [u64],
    cells: &mut [u16],
    rows: &[u32],
    live: usize,
    counts: &[u16],
    s: Shape,
    i: usize,
    j: usize,
    has_peer: bool,
    peer: u64,
    draws: &[u32],
) -> Marking
    requires rows_stand { RowsStand s live rows.now counts.now words.old cells.old }
    requires i_lt_pieces { (i < s.pieces) × (j < blocks_of words.old i) }
    requires i_value { no_partial_left (picker_in live rows.now words.old cells.old) i ≡ false }
    requires min_draws_in_bounds { min_draws ≤ length draws.now }
    ensures change { MarkDone s (mark_as_writing draws.now i j (named_peer has_peer peer))
        (records_in live rows.now) words.old cells.old
        (edit_records result.edit (records_in live rows.now)) words.new cells.new result.answer result.used }
    ensures room { EditRoom s live result.edit }
{
    let Some(k) = partial_of(cells, rows, live, s, i) else {
        let x = BlockInfo {
            state: BlockState::Writing as u16,
            num_peers: 0,
            has_peer,
            peer,
        };
        return open_arrived(words, cells, rows, live, s, i, j, x, draws);
    };
    let d = standing_in(words, rows, counts, s, k, i);
    let m = write_block(
        words, cells, s, i, d.place, j, has_peer, peer, d.tally, draws, 0,
    );
    Marking {
        answer: m.answer,
        edit: Edit::Keep,
        used: m.used,
    }
}
