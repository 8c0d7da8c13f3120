// Lengths of a piece.
// Written by tools/exports.py, and not by hand.
ghost use Rattle.picker_calls.specs.Calling.{answer_on};
ghost use Rattle.picker_calls.specs.Cores.{lending};
ghost use Rattle.picker_answers.specs.Answers.{number_answer};
ghost use Rattle.types.specs.Piece.{number_of};
ghost use Rattle.model.specs.ask.Questions.{of_piece, piece_size, ask_blocks_in_piece, ask_payload_blocks_in_piece};
ghost use Rattle.model.specs.Calls.{question};
ghost use Rattle.std.specs.Prelude.{◌≡◌};
ghost use Rattle.export_arguments.specs.Arguments.{piece_of};
ghost use Rattle.export_answers.specs.Replies.{of_number};
ghost use Rattle.export_answers.specs.Back.{number_in};
ghost use Rattle.export_walks.specs.Saying.{Says};

use export_answers::{Answered, of_number};
use memory_records::DownloadingPiece;
use picker_piece_questions::{blocks_in_piece, payload_blocks_in_piece, piece_size};

#[unsafe(no_mangle)]
pub extern "C" fn pp_piece_size(
    words: &[u64],
    cells: &[u16],
    partials: &[DownloadingPiece],
    piece: i32,
) -> Answered
    ensures { Says of_number number_in (λ o. number_answer o ≡ answer_on (lending words.now cells.now partials.now)
        (question (of_piece piece_size (number_of (piece_of piece).0)))) result }
{
    of_number(piece_size(words, cells, partials, export_arguments::piece(piece)))
}

#[unsafe(no_mangle)]
pub extern "C" fn pp_blocks_in_piece(
    words: &[u64],
    cells: &[u16],
    partials: &[DownloadingPiece],
    piece: i32,
) -> Answered
    ensures { Says of_number number_in (λ o. number_answer o ≡ answer_on (lending words.now cells.now partials.now)
        (question (of_piece ask_blocks_in_piece (number_of (piece_of piece).0)))) result }
{
    of_number(blocks_in_piece(words, cells, partials, export_arguments::piece(piece)))
}

// The blocks without those that pad bytes fill whole.
#[unsafe(no_mangle)]
pub extern "C" fn pp_payload_blocks_in_piece(
    words: &[u64],
    cells: &[u16],
    partials: &[DownloadingPiece],
    piece: i32,
) -> Answered
    ensures { Says of_number number_in (λ o. number_answer o ≡ answer_on (lending words.now cells.now partials.now)
        (question (of_piece ask_payload_blocks_in_piece (number_of (piece_of piece).0)))) result }
{
    of_number(payload_blocks_in_piece(words, cells, partials, export_arguments::piece(piece)))
}
