// Availability and bucket of a piece.
// Written by tools/exports.py, and not by hand.
ghost use Rattle.picker_calls.specs.Calling.{answer_on};
ghost use Rattle.model.specs.ask.Questions.{get_availability, of_piece, piece_stats};
ghost use Rattle.picker_calls.specs.Cores.{lending};
ghost use Rattle.picker_answers.specs.Answers.{number_answer};
ghost use Rattle.types.specs.Piece.{number_of};
ghost use Rattle.model.specs.Calls.{question};
ghost use Rattle.std.specs.Prelude.{◌≡◌};
ghost use Rattle.picker_piece_questions.specs.Answers.{stats_answer};
ghost use Rattle.export_arguments.specs.Arguments.{piece_of};
ghost use Rattle.export_answers.specs.Records.{of_stats};
ghost use Rattle.export_answers.specs.Replies.{of_number};
ghost use Rattle.export_answers.specs.Back.{number_in, stats_in};
ghost use Rattle.export_walks.specs.Saying.{Says};

use export_answers::{Answered, Stats, of_number, of_stats};
use memory_records::DownloadingPiece;
use picker_piece_questions::{get_availability, piece_stats};

// Peers that have the piece, with the seeds.
#[unsafe(no_mangle)]
pub extern "C" fn pp_get_availability(
    words: &[u64],
    cells: &[u16],
    partials: &[DownloadingPiece],
    piece: i32,
) -> Answered
    ensures { Says of_number number_in (λ o. number_answer o ≡ answer_on (lending words.now cells.now partials.now)
        (question (of_piece get_availability (number_of (piece_of piece).0)))) result }
{
    of_number(get_availability(words, cells, partials, export_arguments::piece(piece)))
}

#[unsafe(no_mangle)]
pub extern "C" fn pp_piece_stats(
    words: &[u64],
    cells: &[u16],
    partials: &[DownloadingPiece],
    piece: i32,
) -> Stats
    ensures { Says of_stats stats_in (λ o. stats_answer o ≡ answer_on (lending words.now cells.now partials.now)
        (question (of_piece piece_stats (number_of (piece_of piece).0)))) result }
{
    of_stats(piece_stats(words, cells, partials, export_arguments::piece(piece)))
}
