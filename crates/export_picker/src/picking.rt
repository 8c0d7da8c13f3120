// A pick.
// Written by tools/exports.py, and not by hand.
ghost use Rattle.picker_output.specs.Picking.{PickCalled};
ghost use Rattle.model.specs.Lists.{each};
ghost use Rattle.picker_calls.specs.Cores.{lending};
ghost use Rattle.types.specs.Piece.{number_of};
ghost use Rattle.picker_pick.specs.Answers.{pick_outcome};
ghost use Rattle.pick_judge.specs.Asking.{request_asked};
ghost use Rattle.export_arguments.specs.Arguments.{pick_asked};
ghost use Rattle.export_answers.specs.Picks.{of_pick};
ghost use Rattle.export_answers.specs.Back.{pick_in};
ghost use Rattle.export_walks.specs.Saying.{Says};

use export_answers::{PickAnswered, of_pick};
use export_arguments::PickAsked;
use memory_records::DownloadingPiece;
use picker_pick::pick_pieces;

// The blocks picked are appended to the output; a piece suggested that is none is passed over.
#[unsafe(no_mangle)]
pub extern "C" fn pp_pick_pieces(
    words: &mut [u64],
    cells: &mut [u16],
    partials: &[DownloadingPiece],
    bytes: &[u8],
    suggestions: &[i32],
    out: &mut [u64],
    draws: &[u32],
    a: PickAsked,
) -> PickAnswered
    ensures { Says of_pick pick_in (λ o. PickCalled (lending words.old cells.old partials.now)
        (request_asked (pick_asked a) bytes.now (each number_of suggestions.now)) draws.now (pick_asked a).end out.old
        (lending words.new cells.new partials.now) out.new (pick_outcome o)) result }
{
    of_pick(pick_pieces(
        words,
        cells,
        partials,
        bytes,
        suggestions,
        out,
        draws,
        export_arguments::asked(a),
    ))
}
