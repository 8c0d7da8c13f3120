// A mark of a block whose piece has no partial.
ghost use Rattle.std.specs.Prelude.{◌≡◌, false, cond, ◌≤◌, ◌<◌, length};
ghost use Rattle.types.specs.declared.queue.DownloadQueue.TheVariants.{Downloading, DownloadingReverse};
ghost use Rattle.model.specs.State.{min_draws};
ghost use Rattle.model.specs.change.Changes.{mark_opening};
ghost use Rattle.model.specs.Calls.{no_partial_left};
ghost use Rattle.memory_records.specs.Rows.{records_in};
ghost use Rattle.memory_layout.specs.Decode.{blocks_of};
ghost use Rattle.memory_layout.specs.Standing.{edit_records};
ghost use Rattle.memory_blocks.specs.Blocks.{block_of};
ghost use Rattle.memory_rows.specs.Lookup.{picker_in};
ghost use Rattle.change_steps.specs.Whole.{EditRoom};
ghost use Rattle.change_vacant.specs.Marks.{RowsVacant, MarkDone, mark_arrived};

use crate::answers::Marking;
use change_opening::mark_opening;
use memory_blocks::BlockInfo;
use memory_fields::flushed;
use memory_layout::Shape;
use memory_records::Edit;
use types::DownloadQueue;

// The first state of a piece that is opened, `back` under REVERSE.
pub fn first_state(back: bool) -> DownloadQueue
    ensures { result ≡ cond back DownloadingReverse Downloading }
{
    if back {
        DownloadQueue::DownloadingReverse
    } else {
        DownloadQueue::Downloading
    }
}

// Piece i opened in state q, and its block j becomes x.
pub fn open_mark(
    words: &mut [u64],
    cells: &mut [u16],
    rows: &[u32],
    live: usize,
    s: Shape,
    i: usize,
    q: DownloadQueue,
    affinity: bool,
    j: usize,
    x: BlockInfo,
    draws: &[u32],
) -> Marking
    requires rows_vacant { RowsVacant s live rows.now words.old cells.old i }
    requires i_lt_pieces { (i < s.pieces) × ((j < blocks_of words.old i) × (live < s.places)) }
    requires state_bound { x.state ≤ 3 }
    requires min_draws_in_bounds { min_draws ≤ length draws.now }
    ensures change { MarkDone s (mark_opening draws.now i q affinity j (block_of x)) (records_in live rows.now)
        words.old cells.old (edit_records result.edit (records_in live rows.now))
        words.new cells.new result.answer result.used }
    ensures room { EditRoom s live result.edit }
{
    let m = mark_opening(words, cells, rows, live, s, i, q, affinity, j, x, draws, 0);
    Marking {
        answer: m.answer,
        edit: Edit::Insert(m.partial),
        used: m.used,
    }
}

// Block j of piece i came and becomes x: the piece is opened. One that is flushed ignores it.
pub fn open_arrived(
    words: &mut [u64],
    cells: &mut [u16],
    rows: &[u32],
    live: usize,
    s: Shape,
    i: usize,
    j: usize,
    x: BlockInfo,
    draws: &[u32],
) -> Marking
    requires rows_vacant { RowsVacant s live rows.now words.old cells.old i }
    requires i_lt_pieces { (i < s.pieces) × (j < blocks_of words.old i) }
    requires i_value { no_partial_left (picker_in live rows.now words.old cells.old) i ≡ false }
    requires state_bound { x.state ≤ 3 }
    requires min_draws_in_bounds { min_draws ≤ length draws.now }
    ensures change { MarkDone s (mark_arrived draws.now i j (block_of x)) (records_in live rows.now)
        words.old cells.old (edit_records result.edit (records_in live rows.now))
        words.new cells.new result.answer result.used }
    ensures room { EditRoom s live result.edit }
{
    if flushed(cells, s, i) {
        return Marking {
            answer: false,
            edit: Edit::Keep,
            used: 0,
        };
    }
    open_mark(
        words,
        cells,
        rows,
        live,
        s,
        i,
        DownloadQueue::Downloading,
        false,
        j,
        x,
        draws,
    )
}
