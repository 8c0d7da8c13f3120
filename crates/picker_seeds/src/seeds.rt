// A seed counted in or out: a call that looks at every piece and draws nothing.
ghost use Rattle.std.specs.Prelude.{◌≡◌, length};
ghost use Rattle.model.specs.Lists.{any};
ghost use Rattle.model.specs.Calls.{do_inc_refcount_all, do_dec_refcount_all};
ghost use Rattle.memory_layout.specs.Standing.{StandsBeside};
ghost use Rattle.picker_calls.specs.Outcomes.{outcome};
ghost use Rattle.picker_calls.specs.Judges.{JudgedBeside};
ghost use Rattle.picker_calls.specs.Calling.{Called};
ghost use Rattle.picker_calls.specs.Cores.{lending, CoreGives};
ghost use Rattle.picker_seeds.specs.Counts.{between};

use memory_edits::apply;
use memory_fields::seeds;
use memory_layout::{Shape, piece_column};
use memory_records::{DownloadingPiece, Edit, live_records, unpack};
use picker_calls::{CallStep, Outcome, admit};
use types::{Refusal, u64_to_u16};

// Whether one of the counts lies between two numbers, these included. One pass without a branch.
fn any_between(counts: &[u16], low: u16, high: u16) -> bool
    ensures { result ≡ any (between low high) counts.now }
{
    let mut found = false;
    for &count in counts {
        found = found | ((low <= count) & (count <= high));
    }
    found
}

// 6: a seed more counts with every piece.
fn judge_inc_refcount_all(words: &[u64], cells: &[u16], s: Shape) -> Result<(), Refusal>
    requires { StandsBeside s words.now cells.now }
    ensures { JudgedBeside s words.now cells.now do_inc_refcount_all result }
{
    let left = 1000 - seeds(words, s);
    if any_between(piece_column(cells, s, 0), u64_to_u16(left), 1000) {
        return Err(Refusal::TooManyPeers);
    }
    Ok(())
}

// 7: without a seed, a peer of every piece goes.
fn judge_dec_refcount_all(words: &[u64], cells: &[u16], s: Shape) -> Result<(), Refusal>
    requires { StandsBeside s words.now cells.now }
    ensures { JudgedBeside s words.now cells.now do_dec_refcount_all result }
{
    if 0 < seeds(words, s) {
        return Ok(());
    }
    if any_between(piece_column(cells, s, 0), 0, 0) {
        return Err(Refusal::NoPeerToTake);
    }
    Ok(())
}

fn inc_refcount_all_core(
    words: &mut [u64],
    cells: &mut [u16],
    rows: &[u32],
    lent: usize,
) -> Result<CallStep, Refusal>
    requires { length rows.now ≡ 1536 }
    ensures { CoreGives words.old cells.old rows.now lent do_inc_refcount_all
        words.new cells.new result }
{
    let mut counts = [0; 1536];
    let s = admit(words, cells, rows, lent, &mut counts)?;
    judge_inc_refcount_all(words, cells, s)?;
    let live = live_records(words);
    change_seeds::inc_refcount_all(words, cells, s);
    Ok(CallStep {
        out: Outcome::Done(0),
        count: live,
        edit: Edit::Keep,
    })
}

// A seed comes: a peer that has every piece.
pub fn inc_refcount_all(
    words: &mut [u64],
    cells: &mut [u16],
    partials: &mut [DownloadingPiece],
) -> Result<Outcome, Refusal>
    ensures { Called (lending words.old cells.old partials.old) do_inc_refcount_all
        (lending words.new cells.new partials.new) (outcome result) }
{
    let mut rows = [0; 1536];
    let live = live_records(words);
    let lent = unpack(partials, live, &mut rows);
    let r = inc_refcount_all_core(words, cells, &rows, lent)?;
    apply(partials, r.count, r.edit);
    Ok(r.out)
}

fn dec_refcount_all_core(
    words: &mut [u64],
    cells: &mut [u16],
    rows: &[u32],
    lent: usize,
) -> Result<CallStep, Refusal>
    requires { length rows.now ≡ 1536 }
    ensures { CoreGives words.old cells.old rows.now lent do_dec_refcount_all
        words.new cells.new result }
{
    let mut counts = [0; 1536];
    let s = admit(words, cells, rows, lent, &mut counts)?;
    judge_dec_refcount_all(words, cells, s)?;
    let live = live_records(words);
    change_seeds::dec_refcount_all(words, cells, s);
    Ok(CallStep {
        out: Outcome::Done(0),
        count: live,
        edit: Edit::Keep,
    })
}

// A seed goes; where there is none, a peer of each piece.
pub fn dec_refcount_all(
    words: &mut [u64],
    cells: &mut [u16],
    partials: &mut [DownloadingPiece],
) -> Result<Outcome, Refusal>
    ensures { Called (lending words.old cells.old partials.old) do_dec_refcount_all
        (lending words.new cells.new partials.new) (outcome result) }
{
    let mut rows = [0; 1536];
    let live = live_records(words);
    let lent = unpack(partials, live, &mut rows);
    let r = dec_refcount_all_core(words, cells, &rows, lent)?;
    apply(partials, r.count, r.edit);
    Ok(r.out)
}
