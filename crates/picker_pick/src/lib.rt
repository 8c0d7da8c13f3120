// The public `pick_pieces`. It requires nothing: it is refused as the table says, with every buffer as it was, or does what the
// definition's pick does.
#![tactic(auto, using(picker_calls::proofs::PublicLaws::public_calls))]

ghost use Rattle.std.specs.Prelude.{◌≡◌, length};
ghost use Rattle.types.specs.Piece.{number_of};
ghost use Rattle.model.specs.Lists.{each};
ghost use Rattle.picker_calls.specs.Cores.{lending};
ghost use Rattle.picker_output.specs.Picking.{PickCalled};
ghost use Rattle.pick_judge.specs.Asking.{request_asked};
ghost use Rattle.picker_pick.specs.Answers.{pick_outcome, PickCore};

use memory_records::{DownloadingPiece, live_records, unpack};
use pick_judge::{PickInput, judge_pick, places_free, request};
use pick_pieces::Picked;
use picker_calls::admit;
use types::Refusal;

fn pick_core(
    words: &mut [u64],
    cells: &mut [u16],
    rows: &[u32],
    lent: usize,
    bytes: &[u8],
    suggestions: &[i32],
    out: &mut [u64],
    draws: &[u32],
    a: PickInput,
) -> Result<Picked, Refusal>
    requires { length rows.now ≡ 1536 }
    ensures { PickCore words.old cells.old rows.now lent
        (request_asked a bytes.now (each number_of suggestions.now)) draws.now a.end out.old
        words.new cells.new out.new (pick_outcome result) }
{
    let mut counts = [0; 1536];
    let s = admit(words, cells, rows, lent, &mut counts)?;
    let q = request(a);
    let free = places_free(out.len(), a.end);
    judge_pick(s, q, bytes, suggestions, draws, free)?;
    let live = live_records(words);
    Ok(pick_pieces::pick_pieces(
        words,
        cells,
        rows,
        live,
        &counts,
        s,
        q,
        bytes,
        suggestions,
        draws,
        out,
        a.end,
    ))
}

// The blocks picked are appended to the output; a piece suggested that is none is passed over.
pub fn pick_pieces(
    words: &mut [u64],
    cells: &mut [u16],
    partials: &[DownloadingPiece],
    bytes: &[u8],
    suggestions: &[i32],
    out: &mut [u64],
    draws: &[u32],
    a: PickInput,
) -> Result<Picked, Refusal>
    ensures { PickCalled (lending words.old cells.old partials.now)
        (request_asked a bytes.now (each number_of suggestions.now)) draws.now a.end out.old
        (lending words.new cells.new partials.now) out.new (pick_outcome result) }
{
    let mut rows = [0; 1536];
    let live = live_records(words);
    let lent = unpack(partials, live, &mut rows);
    pick_core(words, cells, &rows, lent, bytes, suggestions, out, draws, a)
}
