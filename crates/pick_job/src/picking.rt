// One pick on a picker that stands in the buffers, judged and made.
ghost use Rattle.std.specs.Prelude.{◌≡◌, [], ◌≤◌, ◌<◌, length, replicate};
ghost use Rattle.types.specs.Piece.{number_of};
ghost use Rattle.model.specs.Lists.{each};
ghost use Rattle.check_partials.specs.Records.{CountsHeld};
ghost use Rattle.memory_rows.specs.Lookup.{picker_in};
ghost use Rattle.ask_picker.specs.Asked.{Asked};
ghost use Rattle.pick_start.specs.Starting.{request_with};
ghost use Rattle.pick_job.specs.Jobs.{answer_of, pick_answered, request_ones};

use crate::asking::request;
use bitfield::num_bytes;
use image_records::Pick;
use memory_layout::Shape;
use pick_judge::judge_pick;
use pick_pieces::{Picked, pick_pieces};
use pick_state::PickRequest;
use types::Refusal;

// With any bitfield, suggestions and draws.
fn pick_with(
    words: &mut [u64],
    cells: &[u16],
    rows: &[u32],
    live: usize,
    counts: &[u16],
    s: Shape,
    q: PickRequest,
    bytes: &[u8],
    suggestions: &[i32],
    draws: &[u32],
    out: &mut [u64],
) -> Result<Picked, Refusal>
    requires asked { (Asked s live rows.now words.old cells.now) × (q.bits ≡ s.pieces) }
    requires counts_held { (CountsHeld (picker_in live rows.now words.old cells.now) live counts.now) × (length counts.now ≡ 1536) }
    ensures { answer_of out.new result
        ≡ pick_answered (picker_in live rows.now words.old cells.now)
        (request_with q bytes.now (each number_of suggestions.now)) (length out.old)
        draws.now }
{
    judge_pick(s, q, bytes, suggestions, draws, out.len())?;
    let picked = pick_pieces(
        words,
        cells,
        rows,
        live,
        counts,
        s,
        q,
        bytes,
        suggestions,
        draws,
        out,
        0,
    );
    Ok(picked)
}

// The program's: a bitfield of ones, no suggestions, every draw 0.
pub fn pick_program(
    words: &mut [u64],
    cells: &[u16],
    rows: &[u32],
    live: usize,
    counts: &[u16],
    s: Shape,
    p: Pick,
    out: &mut [u64],
) -> Result<Picked, Refusal>
    requires asked { (Asked s live rows.now words.old cells.now) × (s.pieces ≤ 64) × (p.options < 65536) }
    requires counts_held { (CountsHeld (picker_in live rows.now words.old cells.now) live counts.now) × (length counts.now ≡ 1536) }
    ensures { answer_of out.new result
        ≡ pick_answered (picker_in live rows.now words.old cells.now) (request_ones p s.pieces)
        (length out.old) (replicate 4352 0) }
{
    let ones = [255u8; 8];
    let none = [0i32; 1];
    let draws = [0u32; 4352];
    let q = request(p, s.pieces);
    let n = num_bytes(s.pieces);
    pick_with(
        words,
        cells,
        rows,
        live,
        counts,
        s,
        q,
        &ones[..n],
        &none[..0],
        &draws,
        out,
    )
}
