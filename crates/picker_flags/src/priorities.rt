// A piece's priority, which document 01 calls its wish.
ghost use Rattle.std.specs.Prelude.{◌≡◌, length};
ghost use Rattle.types.specs.Piece.{number_of};
ghost use Rattle.model.specs.Calls.{refusal, do_set_piece_priority};
ghost use Rattle.picker_calls.specs.Outcomes.{outcome};
ghost use Rattle.picker_calls.specs.Judges.{JudgedShape};
ghost use Rattle.picker_calls.specs.Calling.{Called};
ghost use Rattle.picker_calls.specs.Cores.{lending, CoreGives};

use memory_edits::apply;
use memory_layout::Shape;
use memory_records::{DownloadingPiece, Edit, live_records, unpack};
use picker_calls::{CallStep, Outcome, admit};
use types::{DownloadPriority, PieceIndex, Refusal};

// The piece, and the priority that it is to have.
#[derive(Drop)]
pub struct PiecePriority {
    pub piece: PieceIndex,
    pub priority: DownloadPriority,
}

// 4 and 5.
fn judge_set_piece_priority(s: Shape, draws: &[u32], i: usize, priority: u16) -> Result<(), Refusal>
    ensures { JudgedShape s (λ d. refusal d (do_set_piece_priority i priority draws.now)) result }
{
    if draws.len() < 4352 {
        return Err(Refusal::FewDraws);
    }
    if s.pieces <= i {
        return Err(Refusal::OutOfRange);
    }
    if 7 < priority {
        return Err(Refusal::OutOfRange);
    }
    Ok(())
}

fn set_piece_priority_core(
    words: &mut [u64],
    cells: &mut [u16],
    rows: &[u32],
    lent: usize,
    draws: &[u32],
    new: PiecePriority,
) -> Result<CallStep, Refusal>
    requires { length rows.now ≡ 1536 }
    ensures { CoreGives words.old cells.old rows.now lent
        (do_set_piece_priority (number_of new.piece.0) new.priority.0 draws.now) words.new cells.new result }
{
    let mut counts = [0; 1536];
    let s = admit(words, cells, rows, lent, &mut counts)?;
    let i = new.piece.number();
    let priority = new.priority.0 as u16;
    judge_set_piece_priority(s, draws, i, priority)?;
    let live = live_records(words);
    let r = change_priority::set_piece_priority(
        words, cells, s, rows, live, &counts, i, priority, draws,
    );
    Ok(CallStep {
        out: Outcome::Said(r.turned, r.used),
        count: live,
        edit: Edit::Keep,
    })
}

// The piece has this priority from here on. Answers whether it turned from or to 0, and the draws used.
pub fn set_piece_priority(
    words: &mut [u64],
    cells: &mut [u16],
    partials: &mut [DownloadingPiece],
    draws: &[u32],
    new: PiecePriority,
) -> Result<Outcome, Refusal>
    ensures { Called (lending words.old cells.old partials.old)
        (do_set_piece_priority (number_of new.piece.0) new.priority.0 draws.now)
        (lending words.new cells.new partials.new) (outcome result) }
{
    let mut rows = [0; 1536];
    let live = live_records(words);
    let lent = unpack(partials, live, &mut rows);
    let r = set_piece_priority_core(words, cells, &rows, lent, draws, new)?;
    apply(partials, r.count, r.edit);
    Ok(r.out)
}
