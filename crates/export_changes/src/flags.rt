// A piece locked or passed.
// Written by tools/exports.py, and not by hand.
ghost use Rattle.picker_calls.specs.Calling.{Called};
ghost use Rattle.model.specs.Calls.{do_lock_piece, do_piece_passed};
ghost use Rattle.picker_calls.specs.Cores.{lending};
ghost use Rattle.types.specs.Piece.{number_of};
ghost use Rattle.picker_calls.specs.Outcomes.{outcome};
ghost use Rattle.export_arguments.specs.Arguments.{piece_of};
ghost use Rattle.export_answers.specs.Changes.{of_outcome};
ghost use Rattle.export_answers.specs.Back.{outcome_in};
ghost use Rattle.export_walks.specs.Saying.{Says};

use export_answers::{Changed, of_outcome};
use memory_records::DownloadingPiece;
use picker_flags::{lock_piece, piece_passed};

// No block of the piece is picked, and its hash check counts no more. Nothing where it has no partial.
#[unsafe(no_mangle)]
pub extern "C" fn pp_lock_piece(
    words: &mut [u64],
    cells: &mut [u16],
    partials: &mut [DownloadingPiece],
    piece: i32,
) -> Changed
    ensures { Says of_outcome outcome_in (λ o. Called (lending words.old cells.old partials.old)
        (do_lock_piece (number_of (piece_of piece).0)) (lending words.new cells.new partials.new) (outcome o)) result }
{
    of_outcome(lock_piece(words, cells, partials, export_arguments::piece(piece)))
}

// The piece passed its hash check: on disk at once where every block is. Nothing where it has no partial, or a locked one.
#[unsafe(no_mangle)]
pub extern "C" fn pp_piece_passed(
    words: &mut [u64],
    cells: &mut [u16],
    partials: &mut [DownloadingPiece],
    piece: i32,
) -> Changed
    ensures { Says of_outcome outcome_in (λ o. Called (lending words.old cells.old partials.old)
        (do_piece_passed (number_of (piece_of piece).0)) (lending words.new cells.new partials.new) (outcome o)) result }
{
    of_outcome(piece_passed(words, cells, partials, export_arguments::piece(piece)))
}
