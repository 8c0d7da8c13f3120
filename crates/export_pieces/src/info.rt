// The blocks of a partial by state.
// Written by tools/exports.py, and not by hand.
ghost use Rattle.picker_calls.specs.Calling.{answer_on};
ghost use Rattle.picker_partial_questions.specs.Answers.{info_answer};
ghost use Rattle.picker_calls.specs.Cores.{lending};
ghost use Rattle.types.specs.Piece.{number_of};
ghost use Rattle.model.specs.ask.Questions.{of_piece, piece_info, is_piece_finished};
ghost use Rattle.model.specs.Calls.{question};
ghost use Rattle.std.specs.Prelude.{◌≡◌};
ghost use Rattle.picker_answers.specs.Answers.{flag_answer};
ghost use Rattle.export_arguments.specs.Arguments.{piece_of};
ghost use Rattle.export_answers.specs.Records.{of_info};
ghost use Rattle.export_answers.specs.Replies.{of_flag};
ghost use Rattle.export_answers.specs.Back.{flag_in, info_in};
ghost use Rattle.export_walks.specs.Saying.{Says};

use export_answers::{Answered, Info, of_flag, of_info};
use memory_records::DownloadingPiece;
use picker_partial_questions::{is_piece_finished, piece_info};

#[unsafe(no_mangle)]
pub extern "C" fn pp_piece_info(
    words: &[u64],
    cells: &[u16],
    partials: &[DownloadingPiece],
    piece: i32,
) -> Info
    ensures { Says of_info info_in (λ o. info_answer o ≡ answer_on (lending words.now cells.now partials.now)
        (question (of_piece piece_info (number_of (piece_of piece).0)))) result }
{
    of_info(piece_info(words, cells, partials, export_arguments::piece(piece)))
}

// Whether every block is being written or on disk.
#[unsafe(no_mangle)]
pub extern "C" fn pp_is_piece_finished(
    words: &[u64],
    cells: &[u16],
    partials: &[DownloadingPiece],
    piece: i32,
) -> Answered
    ensures { Says of_flag flag_in (λ o. flag_answer o ≡ answer_on (lending words.now cells.now partials.now)
        (question (of_piece is_piece_finished (number_of (piece_of piece).0)))) result }
{
    of_flag(is_piece_finished(words, cells, partials, export_arguments::piece(piece)))
}
