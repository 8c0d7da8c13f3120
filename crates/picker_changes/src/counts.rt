// A peer counted in or out.
ghost use Rattle.std.specs.Prelude.{◌≡◌, length};
ghost use Rattle.types.specs.Piece.{number_of};
ghost use Rattle.model.specs.Calls.{do_inc_refcount, do_dec_refcount};
ghost use Rattle.memory_layout.specs.Standing.{StandsBeside};
ghost use Rattle.picker_calls.specs.Outcomes.{outcome};
ghost use Rattle.picker_calls.specs.Judges.{JudgedBeside};
ghost use Rattle.picker_calls.specs.Calling.{Called};
ghost use Rattle.picker_calls.specs.Cores.{lending, CoreGives};

use ask_piece::get_availability;
use memory_edits::apply;
use memory_layout::Shape;
use memory_records::{DownloadingPiece, Edit, live_records, unpack};
use picker_calls::{CallStep, Outcome, admit};
use types::{MAX_PEERS, PieceIndex, Refusal};

// 4, 5 and 6.
fn judge_inc_refcount(
    words: &[u64],
    cells: &[u16],
    s: Shape,
    draws: &[u32],
    i: usize,
) -> Result<(), Refusal>
    requires { StandsBeside s words.now cells.now }
    ensures { JudgedBeside s words.now cells.now (do_inc_refcount i draws.now) result }
{
    if draws.len() < 4352 {
        return Err(Refusal::FewDraws);
    }
    if s.pieces <= i {
        return Err(Refusal::OutOfRange);
    }
    if MAX_PEERS <= get_availability(words, cells, s, i) {
        return Err(Refusal::TooManyPeers);
    }
    Ok(())
}

fn inc_refcount_core(
    words: &mut [u64],
    cells: &mut [u16],
    rows: &[u32],
    lent: usize,
    draws: &[u32],
    piece: PieceIndex,
) -> Result<CallStep, Refusal>
    requires { length rows.now ≡ 1536 }
    ensures { CoreGives words.old cells.old rows.now lent
        (do_inc_refcount (number_of piece.0) draws.now) words.new cells.new result }
{
    let mut counts = [0; 1536];
    let s = admit(words, cells, rows, lent, &mut counts)?;
    let i = piece.number();
    judge_inc_refcount(words, cells, s, draws, i)?;
    let live = live_records(words);
    let used = change_counts::inc_refcount(words, cells, s, i, draws);
    Ok(CallStep {
        out: Outcome::Done(used),
        count: live,
        edit: Edit::Keep,
    })
}

// A peer has the piece. Answers the draws used.
pub fn inc_refcount(
    words: &mut [u64],
    cells: &mut [u16],
    partials: &mut [DownloadingPiece],
    draws: &[u32],
    piece: PieceIndex,
) -> Result<Outcome, Refusal>
    ensures { Called (lending words.old cells.old partials.old)
        (do_inc_refcount (number_of piece.0) draws.now) (lending words.new cells.new partials.new)
        (outcome result) }
{
    let mut rows = [0; 1536];
    let live = live_records(words);
    let lent = unpack(partials, live, &mut rows);
    let r = inc_refcount_core(words, cells, &rows, lent, draws, piece)?;
    apply(partials, r.count, r.edit);
    Ok(r.out)
}

// 4, 5 and 7.
fn judge_dec_refcount(
    words: &[u64],
    cells: &[u16],
    s: Shape,
    draws: &[u32],
    i: usize,
) -> Result<(), Refusal>
    requires { StandsBeside s words.now cells.now }
    ensures { JudgedBeside s words.now cells.now (do_dec_refcount i draws.now) result }
{
    if draws.len() < 4352 {
        return Err(Refusal::FewDraws);
    }
    if s.pieces <= i {
        return Err(Refusal::OutOfRange);
    }
    if get_availability(words, cells, s, i) == 0 {
        return Err(Refusal::NoPeerToTake);
    }
    Ok(())
}

fn dec_refcount_core(
    words: &mut [u64],
    cells: &mut [u16],
    rows: &[u32],
    lent: usize,
    draws: &[u32],
    piece: PieceIndex,
) -> Result<CallStep, Refusal>
    requires { length rows.now ≡ 1536 }
    ensures { CoreGives words.old cells.old rows.now lent
        (do_dec_refcount (number_of piece.0) draws.now) words.new cells.new result }
{
    let mut counts = [0; 1536];
    let s = admit(words, cells, rows, lent, &mut counts)?;
    let i = piece.number();
    judge_dec_refcount(words, cells, s, draws, i)?;
    let live = live_records(words);
    let used = change_counts::dec_refcount(words, cells, s, i, draws);
    Ok(CallStep {
        out: Outcome::Done(used),
        count: live,
        edit: Edit::Keep,
    })
}

// A peer has the piece no more. Answers the draws used.
pub fn dec_refcount(
    words: &mut [u64],
    cells: &mut [u16],
    partials: &mut [DownloadingPiece],
    draws: &[u32],
    piece: PieceIndex,
) -> Result<Outcome, Refusal>
    ensures { Called (lending words.old cells.old partials.old)
        (do_dec_refcount (number_of piece.0) draws.now) (lending words.new cells.new partials.new)
        (outcome result) }
{
    let mut rows = [0; 1536];
    let live = live_records(words);
    let lent = unpack(partials, live, &mut rows);
    let r = dec_refcount_core(words, cells, &rows, lent, draws, piece)?;
    apply(partials, r.count, r.edit);
    Ok(r.out)
}
