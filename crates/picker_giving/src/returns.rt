// A block given back.
ghost use Rattle.std.specs.Prelude.{◌≡◌, length};
ghost use Rattle.model.specs.Calls.{do_abort_download, do_mark_as_canceled};
ghost use Rattle.picker_blocks.specs.Arguments.{on_block};
ghost use Rattle.picker_calls.specs.Outcomes.{outcome};
ghost use Rattle.picker_calls.specs.Calling.{Called};
ghost use Rattle.picker_calls.specs.Cores.{lending, CoreGives};

use memory_edits::apply;
use memory_records::{DownloadingPiece, live_records, unpack};
use picker_blocks::{BlockPeer, block_number, judge_block};
use picker_calls::{CallStep, Outcome, admit};
use types::Refusal;

// ---- abort_download
fn abort_download_core(
    words: &mut [u64],
    cells: &mut [u16],
    rows: &[u32],
    lent: usize,
    draws: &[u32],
    named: BlockPeer,
) -> Result<CallStep, Refusal>
    requires { length rows.now ≡ 1536 }
    ensures { CoreGives words.old cells.old rows.now lent
        (on_block do_abort_download named draws.now) words.new cells.new result }
{
    let mut counts = [0; 1536];
    let s = admit(words, cells, rows, lent, &mut counts)?;
    let i = named.block.piece_index.number();
    let j = block_number(named.block);
    judge_block(words, s, draws, i, j)?;
    let live = live_records(words);
    let g = change_giving::abort_download(
        words,
        cells,
        rows,
        live,
        &counts,
        s,
        i,
        j,
        named.has_peer,
        named.peer,
        draws,
    );
    Ok(CallStep {
        out: Outcome::Done(g.used),
        count: live,
        edit: g.edit,
    })
}

// The peer no longer asks for the block. Answers the draws used.
pub fn abort_download(
    words: &mut [u64],
    cells: &mut [u16],
    partials: &mut [DownloadingPiece],
    draws: &[u32],
    named: BlockPeer,
) -> Result<Outcome, Refusal>
    ensures { Called (lending words.old cells.old partials.old)
        (on_block do_abort_download named draws.now) (lending words.new cells.new partials.new)
        (outcome result) }
{
    let mut rows = [0; 1536];
    let live = live_records(words);
    let lent = unpack(partials, live, &mut rows);
    let r = abort_download_core(words, cells, &rows, lent, draws, named)?;
    apply(partials, r.count, r.edit);
    Ok(r.out)
}

// ---- mark_as_canceled
fn mark_as_canceled_core(
    words: &mut [u64],
    cells: &mut [u16],
    rows: &[u32],
    lent: usize,
    draws: &[u32],
    named: BlockPeer,
) -> Result<CallStep, Refusal>
    requires { length rows.now ≡ 1536 }
    ensures { CoreGives words.old cells.old rows.now lent
        (on_block do_mark_as_canceled named draws.now) words.new cells.new result }
{
    let mut counts = [0; 1536];
    let s = admit(words, cells, rows, lent, &mut counts)?;
    let i = named.block.piece_index.number();
    let j = block_number(named.block);
    judge_block(words, s, draws, i, j)?;
    let live = live_records(words);
    let g = change_giving::mark_as_canceled(
        words,
        cells,
        rows,
        live,
        &counts,
        s,
        i,
        j,
        named.has_peer,
        named.peer,
        draws,
    );
    Ok(CallStep {
        out: Outcome::Done(g.used),
        count: live,
        edit: g.edit,
    })
}

// The write of the block, which the peer brought, failed. Answers the draws used.
pub fn mark_as_canceled(
    words: &mut [u64],
    cells: &mut [u16],
    partials: &mut [DownloadingPiece],
    draws: &[u32],
    named: BlockPeer,
) -> Result<Outcome, Refusal>
    ensures { Called (lending words.old cells.old partials.old)
        (on_block do_mark_as_canceled named draws.now) (lending words.new cells.new partials.new)
        (outcome result) }
{
    let mut rows = [0; 1536];
    let live = live_records(words);
    let lent = unpack(partials, live, &mut rows);
    let r = mark_as_canceled_core(words, cells, &rows, lent, draws, named)?;
    apply(partials, r.count, r.edit);
    Ok(r.out)
}
