// The flags of a partial.
// Written by tools/exports.py, and not by hand.
ghost use Rattle.picker_calls.specs.Calling.{answer_on};
ghost use Rattle.picker_calls.specs.Cores.{lending};
ghost use Rattle.types.specs.Piece.{number_of};
ghost use Rattle.model.specs.ask.Questions.{of_piece, passed_hash_check, locked?, hashing?, is_hashing, ask_have_piece};
ghost use Rattle.picker_partial_questions.specs.Answers.{partial_flag_answer};
ghost use Rattle.model.specs.Calls.{question};
ghost use Rattle.std.specs.Prelude.{◌≡◌};
ghost use Rattle.picker_answers.specs.Answers.{flag_answer};
ghost use Rattle.export_arguments.specs.Arguments.{piece_of};
ghost use Rattle.export_answers.specs.Replies.{of_flag, of_partial_flag};
ghost use Rattle.export_answers.specs.Back.{flag_in, partial_flag_in};
ghost use Rattle.export_walks.specs.Saying.{Says};

use export_answers::{Answered, of_flag, of_partial_flag};
use memory_records::DownloadingPiece;
use picker_partial_questions::{hashing, have_piece, is_hashing, locked, passed_hash_check};

#[unsafe(no_mangle)]
pub extern "C" fn pp_passed_hash_check(
    words: &[u64],
    cells: &[u16],
    partials: &[DownloadingPiece],
    piece: i32,
) -> Answered
    ensures { Says of_partial_flag partial_flag_in (λ o. partial_flag_answer o
        ≡ answer_on (lending words.now cells.now partials.now) (question (of_piece passed_hash_check (number_of (piece_of piece).0))))
        result }
{
    of_partial_flag(passed_hash_check(words, cells, partials, export_arguments::piece(piece)))
}

#[unsafe(no_mangle)]
pub extern "C" fn pp_locked(
    words: &[u64],
    cells: &[u16],
    partials: &[DownloadingPiece],
    piece: i32,
) -> Answered
    ensures { Says of_partial_flag partial_flag_in (λ o. partial_flag_answer o
        ≡ answer_on (lending words.now cells.now partials.now) (question (of_piece locked? (number_of (piece_of piece).0)))) result }
{
    of_partial_flag(locked(words, cells, partials, export_arguments::piece(piece)))
}

#[unsafe(no_mangle)]
pub extern "C" fn pp_hashing(
    words: &[u64],
    cells: &[u16],
    partials: &[DownloadingPiece],
    piece: i32,
) -> Answered
    ensures { Says of_partial_flag partial_flag_in (λ o. partial_flag_answer o
        ≡ answer_on (lending words.now cells.now partials.now) (question (of_piece hashing? (number_of (piece_of piece).0)))) result }
{
    of_partial_flag(hashing(words, cells, partials, export_arguments::piece(piece)))
}

// Whether a partial stands that is being hashed.
#[unsafe(no_mangle)]
pub extern "C" fn pp_is_hashing(
    words: &[u64],
    cells: &[u16],
    partials: &[DownloadingPiece],
    piece: i32,
) -> Answered
    ensures { Says of_flag flag_in (λ o. flag_answer o ≡ answer_on (lending words.now cells.now partials.now)
        (question (of_piece is_hashing (number_of (piece_of piece).0)))) result }
{
    of_flag(is_hashing(words, cells, partials, export_arguments::piece(piece)))
}

// Whether the piece is flushed, or passed while still a partial.
#[unsafe(no_mangle)]
pub extern "C" fn pp_have_piece(
    words: &[u64],
    cells: &[u16],
    partials: &[DownloadingPiece],
    piece: i32,
) -> Answered
    ensures { Says of_flag flag_in (λ o. flag_answer o ≡ answer_on (lending words.now cells.now partials.now)
        (question (of_piece ask_have_piece (number_of (piece_of piece).0)))) result }
{
    of_flag(have_piece(words, cells, partials, export_arguments::piece(piece)))
}
