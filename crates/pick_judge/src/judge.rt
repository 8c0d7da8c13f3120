// 4, 11 and 12 of the table.
ghost use Rattle.std.specs.Prelude.{◌≡◌};
ghost use Rattle.types.specs.Piece.{number_of};
ghost use Rattle.model.specs.Lists.{each};
ghost use Rattle.model.specs.Calls.{do_pick_pieces};
ghost use Rattle.pick_start.specs.Starting.{request_with};
ghost use Rattle.pick_judge.specs.Asking.{numbers_fit, RequestSays, PickJudged};

use bitfield::num_bytes;
use memory_layout::Shape;
use pick_state::PickRequest;
use types::{PickerOptions, Refusal};

// N is 1 to 2,048, P and the peers are not too many, and the list is walked one way.
fn numbers_fit(q: PickRequest) -> bool
    ensures { result ≡ numbers_fit q }
{
    let rarest = q.options.contains(PickerOptions::RAREST_FIRST);
    let sequential = q.options.contains(PickerOptions::SEQUENTIAL);
    (1 <= q.wanted)
        & (q.wanted <= 2048)
        & (q.contiguous <= 2048)
        & (q.peers <= 1000)
        & !(rarest & sequential)
}

// All that 11 asks of the arguments, with so many bytes and suggestions lent.
fn request_fits(s: Shape, q: PickRequest, bytes: usize, suggestions: usize) -> bool
    ensures { RequestSays s q bytes suggestions result }
{
    let fit = numbers_fit(q);
    let most = num_bytes(q.bits);
    fit & (suggestions <= 256) & (q.bits == s.pieces) & (bytes == most)
}

// The first of the three that holds; `free` is the number of places of the output that are free.
pub fn judge_pick(
    s: Shape,
    q: PickRequest,
    bytes: &[u8],
    suggestions: &[i32],
    draws: &[u32],
    free: usize,
) -> Result<(), Refusal>
    ensures { PickJudged s (do_pick_pieces (request_with q bytes.now (each number_of suggestions.now)) free
        draws.now) result }
{
    if draws.len() < 4352 {
        return Err(Refusal::FewDraws);
    }
    if !request_fits(s, q, bytes.len(), suggestions.len()) {
        return Err(Refusal::PickArguments);
    }
    if free < q.wanted + q.contiguous + 255 {
        return Err(Refusal::ShortOutput);
    }
    Ok(())
}
