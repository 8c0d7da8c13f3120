// A piece locked or passed: calls that look at its partial's flags and draw nothing.
ghost use Rattle.std.specs.Prelude.{◌≡◌, length};
ghost use Rattle.std.proofs.Math.Option.{none};
ghost use Rattle.types.specs.Piece.{number_of};
ghost use Rattle.model.specs.Calls.{refuse_bad_piece, do_lock_piece, do_piece_passed};
ghost use Rattle.picker_calls.specs.Outcomes.{outcome};
ghost use Rattle.picker_calls.specs.Judges.{JudgedShape};
ghost use Rattle.picker_calls.specs.Calling.{Called};
ghost use Rattle.picker_calls.specs.Cores.{lending, CoreGives};

use memory_edits::apply;
use memory_layout::Shape;
use memory_records::{DownloadingPiece, live_records, unpack};
use picker_calls::{CallStep, Outcome, admit};
use types::{PieceIndex, Refusal};

// 5, of both calls.
fn judge_piece(s: Shape, i: usize) -> Result<(), Refusal>
    ensures { JudgedShape s (λ d. refuse_bad_piece d i none) result }
{
    if s.pieces <= i {
        return Err(Refusal::OutOfRange);
    }
    Ok(())
}

fn lock_piece_core(
    words: &mut [u64],
    cells: &mut [u16],
    rows: &[u32],
    lent: usize,
    piece: PieceIndex,
) -> Result<CallStep, Refusal>
    requires { length rows.now ≡ 1536 }
    ensures { CoreGives words.old cells.old rows.now lent (do_lock_piece (number_of piece.0))
        words.new cells.new result }
{
    let mut counts = [0; 1536];
    let s = admit(words, cells, rows, lent, &mut counts)?;
    let i = piece.number();
    judge_piece(s, i)?;
    let live = live_records(words);
    let edit = change_flags::lock_piece(rows, live, i);
    Ok(CallStep {
        out: Outcome::Done(0),
        count: live,
        edit,
    })
}

// No block of the piece is picked, and its hash check counts no more. Nothing where it has no partial.
pub fn lock_piece(
    words: &mut [u64],
    cells: &mut [u16],
    partials: &mut [DownloadingPiece],
    piece: PieceIndex,
) -> Result<Outcome, Refusal>
    ensures { Called (lending words.old cells.old partials.old) (do_lock_piece (number_of piece.0))
        (lending words.new cells.new partials.new) (outcome result) }
{
    let mut rows = [0; 1536];
    let live = live_records(words);
    let lent = unpack(partials, live, &mut rows);
    let r = lock_piece_core(words, cells, &rows, lent, piece)?;
    apply(partials, r.count, r.edit);
    Ok(r.out)
}

fn piece_passed_core(
    words: &mut [u64],
    cells: &mut [u16],
    rows: &[u32],
    lent: usize,
    piece: PieceIndex,
) -> Result<CallStep, Refusal>
    requires { length rows.now ≡ 1536 }
    ensures { CoreGives words.old cells.old rows.now lent (do_piece_passed (number_of piece.0))
        words.new cells.new result }
{
    let mut counts = [0; 1536];
    let s = admit(words, cells, rows, lent, &mut counts)?;
    let i = piece.number();
    judge_piece(s, i)?;
    let live = live_records(words);
    let edit = change_flags::piece_passed(words, cells, rows, live, &counts, s, i);
    Ok(CallStep {
        out: Outcome::Done(0),
        count: live,
        edit,
    })
}

// The piece passed its hash check: on disk at once where every block is. Nothing where it has no partial, or a locked one.
pub fn piece_passed(
    words: &mut [u64],
    cells: &mut [u16],
    partials: &mut [DownloadingPiece],
    piece: PieceIndex,
) -> Result<Outcome, Refusal>
    ensures { Called (lending words.old cells.old partials.old) (do_piece_passed (number_of piece.0))
        (lending words.new cells.new partials.new) (outcome result) }
{
    let mut rows = [0; 1536];
    let live = live_records(words);
    let lent = unpack(partials, live, &mut rows);
    let r = piece_passed_core(words, cells, &rows, lent, piece)?;
    apply(partials, r.count, r.edit);
    Ok(r.out)
}
