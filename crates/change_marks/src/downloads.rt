// A block asked for.
ghost use Rattle.std.specs.Prelude.{◌≡◌, false, ◌≤◌, ◌<◌, length};
ghost use Rattle.types.specs.Peer.{named_peer};
ghost use Rattle.model.specs.State.{min_draws, piece_at};
ghost use Rattle.model.specs.change.Changes.{mark_as_downloading};
ghost use Rattle.model.specs.Calls.{no_partial_left};
ghost use Rattle.memory_records.specs.Rows.{records_in};
ghost use Rattle.memory_layout.specs.Decode.{blocks_of};
ghost use Rattle.memory_layout.specs.Standing.{edit_records};
ghost use Rattle.memory_rows.specs.Lookup.{picker_in};
ghost use Rattle.change_steps.specs.Whole.{EditRoom};
ghost use Rattle.change_tally.specs.RowsStanding.{RowsStand};
ghost use Rattle.change_vacant.specs.Marks.{MarkDone};

use change_requests::request_block;
use change_tally::standing_in;
use change_vacant::{Marking, first_state, open_mark, partial_of};
use memory_blocks::BlockInfo;
use memory_layout::Shape;
use memory_records::Edit;
use types::{BlockState, PickerOptions};

// The named peer is asked for block j of piece i, which is not flushed. A piece without a partial is opened.
pub fn mark_as_downloading(
    words: &mut [u64],
    cells: &mut [u16],
    rows: &[u32],
    live: usize,
    counts: &[u16],
    s: Shape,
    i: usize,
    j: usize,
    has_peer: bool,
    peer: u64,
    options: PickerOptions,
    draws: &[u32],
) -> Marking
    requires rows_stand { RowsStand s live rows.now counts.now words.old cells.old }
    requires i_lt_pieces { (i < s.pieces) × (j < blocks_of words.old i) }
    requires i_value { (piece_at (picker_in live rows.now words.old cells.old) i).flushed ≡ false }
    requires i_value_2 { no_partial_left (picker_in live rows.now words.old cells.old) i ≡ false }
    requires min_draws_in_bounds { min_draws ≤ length draws.now }
    ensures change { MarkDone s (mark_as_downloading draws.now i j (named_peer has_peer peer) options.0)
        (records_in live rows.now) words.old cells.old
        (edit_records result.edit (records_in live rows.now)) words.new cells.new result.answer result.used }
    ensures room { EditRoom s live result.edit }
{
    let back = options.contains(PickerOptions::REVERSE);
    let affinity = options.contains(PickerOptions::PIECE_EXTENT_AFFINITY);
    let Some(k) = partial_of(cells, rows, live, s, i) else {
        let q = first_state(back);
        let x = BlockInfo {
            state: BlockState::Requested as u16,
            num_peers: 1,
            has_peer,
            peer,
        };
        return open_mark(words, cells, rows, live, s, i, q, affinity, j, x, draws);
    };
    let d = standing_in(words, rows, counts, s, k, i);
    let m = request_block(
        words, cells, s, i, d.place, j, back, has_peer, peer, d.tally, draws, 0,
    );
    Marking {
        answer: m.answer,
        edit: Edit::Keep,
        used: m.used,
    }
}
