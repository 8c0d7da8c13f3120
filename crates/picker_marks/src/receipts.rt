// A block brought.
ghost use Rattle.std.specs.Prelude.{◌≡◌, length};
ghost use Rattle.model.specs.Calls.{do_mark_as_writing};
ghost use Rattle.picker_blocks.specs.Arguments.{on_block};
ghost use Rattle.picker_calls.specs.Outcomes.{outcome};
ghost use Rattle.picker_calls.specs.Calling.{Called};
ghost use Rattle.picker_calls.specs.Cores.{lending, CoreGives};

use memory_edits::apply;
use memory_records::{DownloadingPiece, live_records, unpack};
use picker_blocks::{BlockPeer, block_number, judge_writing};
use picker_calls::{CallStep, Outcome, admit};
use types::Refusal;

fn mark_as_writing_core(
    words: &mut [u64],
    cells: &mut [u16],
    rows: &[u32],
    lent: usize,
    draws: &[u32],
    named: BlockPeer,
) -> Result<CallStep, Refusal>
    requires { length rows.now ≡ 1536 }
    ensures { CoreGives words.old cells.old rows.now lent
        (on_block do_mark_as_writing named draws.now) words.new cells.new result }
{
    let mut counts = [0; 1536];
    let s = admit(words, cells, rows, lent, &mut counts)?;
    let i = named.block.piece_index.number();
    let j = block_number(named.block);
    let live = live_records(words);
    judge_writing(words, cells, rows, live, s, draws, i, j)?;
    let m = change_marks::mark_as_writing(
        words,
        cells,
        rows,
        live,
        &counts,
        s,
        i,
        j,
        named.has_peer,
        named.peer,
        draws,
    );
    Ok(CallStep {
        out: Outcome::Said(m.answer, m.used),
        count: live,
        edit: m.edit,
    })
}

// The peer brought the block, which is being written. Answers whether it was marked, and the draws used.
pub fn mark_as_writing(
    words: &mut [u64],
    cells: &mut [u16],
    partials: &mut [DownloadingPiece],
    draws: &[u32],
    named: BlockPeer,
) -> Result<Outcome, Refusal>
    ensures { Called (lending words.old cells.old partials.old)
        (on_block do_mark_as_writing named draws.now) (lending words.new cells.new partials.new)
        (outcome result) }
{
    let mut rows = [0; 1536];
    let live = live_records(words);
    let lent = unpack(partials, live, &mut rows);
    let r = mark_as_writing_core(words, cells, &rows, lent, draws, named)?;
    apply(partials, r.count, r.edit);
    Ok(r.out)
}
