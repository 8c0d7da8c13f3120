// A peer counted in or out.
// Written by tools/exports.py, and not by hand.
ghost use Rattle.picker_calls.specs.Calling.{Called};
ghost use Rattle.model.specs.Calls.{do_inc_refcount, do_dec_refcount};
ghost use Rattle.picker_calls.specs.Cores.{lending};
ghost use Rattle.types.specs.Piece.{number_of};
ghost use Rattle.picker_calls.specs.Outcomes.{outcome};
ghost use Rattle.export_arguments.specs.Arguments.{piece_of};
ghost use Rattle.export_answers.specs.Changes.{of_outcome};
ghost use Rattle.export_answers.specs.Back.{outcome_in};
ghost use Rattle.export_walks.specs.Saying.{Says};

use export_answers::{Changed, of_outcome};
use memory_records::DownloadingPiece;
use picker_changes::{dec_refcount, inc_refcount};

// A peer has the piece. Answers the draws used.
#[unsafe(no_mangle)]
pub extern "C" fn pp_inc_refcount(
    words: &mut [u64],
    cells: &mut [u16],
    partials: &mut [DownloadingPiece],
    draws: &[u32],
    piece: i32,
) -> Changed
    ensures { Says of_outcome outcome_in (λ o. Called (lending words.old cells.old partials.old)
        (do_inc_refcount (number_of (piece_of piece).0) draws.now) (lending words.new cells.new partials.new) (outcome o)) result }
{
    of_outcome(inc_refcount(
        words,
        cells,
        partials,
        draws,
        export_arguments::piece(piece),
    ))
}

// A peer has the piece no more. Answers the draws used.
#[unsafe(no_mangle)]
pub extern "C" fn pp_dec_refcount(
    words: &mut [u64],
    cells: &mut [u16],
    partials: &mut [DownloadingPiece],
    draws: &[u32],
    piece: i32,
) -> Changed
    ensures { Says of_outcome outcome_in (λ o. Called (lending words.old cells.old partials.old)
        (do_dec_refcount (number_of (piece_of piece).0) draws.now) (lending words.new cells.new partials.new) (outcome o)) result }
{
    of_outcome(dec_refcount(
        words,
        cells,
        partials,
        draws,
        export_arguments::piece(piece),
    ))
}
