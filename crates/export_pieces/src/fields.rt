// The fields of a piece.
// Written by tools/exports.py, and not by hand.
ghost use Rattle.picker_calls.specs.Calling.{answer_on};
ghost use Rattle.picker_calls.specs.Cores.{lending};
ghost use Rattle.picker_answers.specs.Answers.{number_answer, flag_answer};
ghost use Rattle.types.specs.Piece.{number_of};
ghost use Rattle.model.specs.ask.Questions.{of_piece, pad_bytes_in_piece, peer_count, piece_priority, download_state, is_piece_flushed};
ghost use Rattle.model.specs.ask.Questions.{is_downloading};
ghost use Rattle.model.specs.Calls.{question};
ghost use Rattle.std.specs.Prelude.{◌≡◌};
ghost use Rattle.export_arguments.specs.Arguments.{piece_of};
ghost use Rattle.export_answers.specs.Replies.{of_flag, of_number};
ghost use Rattle.export_answers.specs.Back.{flag_in, number_in};
ghost use Rattle.export_walks.specs.Saying.{Says};

use export_answers::{Answered, of_flag, of_number};
use memory_records::DownloadingPiece;
use picker_piece_questions::{
    download_state, is_downloading, is_piece_flushed, pad_bytes_in_piece, peer_count,
    piece_priority,
};

#[unsafe(no_mangle)]
pub extern "C" fn pp_pad_bytes_in_piece(
    words: &[u64],
    cells: &[u16],
    partials: &[DownloadingPiece],
    piece: i32,
) -> Answered
    ensures { Says of_number number_in (λ o. number_answer o ≡ answer_on (lending words.now cells.now partials.now)
        (question (of_piece pad_bytes_in_piece (number_of (piece_of piece).0)))) result }
{
    of_number(pad_bytes_in_piece(words, cells, partials, export_arguments::piece(piece)))
}

// The peers that have the piece, without the seeds.
#[unsafe(no_mangle)]
pub extern "C" fn pp_peer_count(
    words: &[u64],
    cells: &[u16],
    partials: &[DownloadingPiece],
    piece: i32,
) -> Answered
    ensures { Says of_number number_in (λ o. number_answer o ≡ answer_on (lending words.now cells.now partials.now)
        (question (of_piece peer_count (number_of (piece_of piece).0)))) result }
{
    of_number(peer_count(words, cells, partials, export_arguments::piece(piece)))
}

#[unsafe(no_mangle)]
pub extern "C" fn pp_piece_priority(
    words: &[u64],
    cells: &[u16],
    partials: &[DownloadingPiece],
    piece: i32,
) -> Answered
    ensures { Says of_number number_in (λ o. number_answer o ≡ answer_on (lending words.now cells.now partials.now)
        (question (of_piece piece_priority (number_of (piece_of piece).0)))) result }
{
    of_number(piece_priority(words, cells, partials, export_arguments::piece(piece)))
}

// The number of the piece's state.
#[unsafe(no_mangle)]
pub extern "C" fn pp_download_state(
    words: &[u64],
    cells: &[u16],
    partials: &[DownloadingPiece],
    piece: i32,
) -> Answered
    ensures { Says of_number number_in (λ o. number_answer o ≡ answer_on (lending words.now cells.now partials.now)
        (question (of_piece download_state (number_of (piece_of piece).0)))) result }
{
    of_number(download_state(words, cells, partials, export_arguments::piece(piece)))
}

#[unsafe(no_mangle)]
pub extern "C" fn pp_is_piece_flushed(
    words: &[u64],
    cells: &[u16],
    partials: &[DownloadingPiece],
    piece: i32,
) -> Answered
    ensures { Says of_flag flag_in (λ o. flag_answer o ≡ answer_on (lending words.now cells.now partials.now)
        (question (of_piece is_piece_flushed (number_of (piece_of piece).0)))) result }
{
    of_flag(is_piece_flushed(words, cells, partials, export_arguments::piece(piece)))
}

// Whether the piece is in a queue: in any state but Open.
#[unsafe(no_mangle)]
pub extern "C" fn pp_is_downloading(
    words: &[u64],
    cells: &[u16],
    partials: &[DownloadingPiece],
    piece: i32,
) -> Answered
    ensures { Says of_flag flag_in (λ o. flag_answer o ≡ answer_on (lending words.now cells.now partials.now)
        (question (of_piece is_downloading (number_of (piece_of piece).0)))) result }
{
    of_flag(is_downloading(words, cells, partials, export_arguments::piece(piece)))
}
