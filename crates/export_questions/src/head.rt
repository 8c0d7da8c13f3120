// What the head and the geometry tell.
// Written by tools/exports.py, and not by hand.
ghost use Rattle.picker_calls.specs.Calling.{answer_on};
ghost use Rattle.picker_calls.specs.Cores.{lending};
ghost use Rattle.model.specs.ask.Questions.{num_pieces, of_picker, ask_blocks_per_piece, block_size, total_size, full_piece_size};
ghost use Rattle.model.specs.ask.Questions.{num_seeds, cursor?, reverse_cursor?, dirty?, get_download_queue_size};
ghost use Rattle.picker_answers.specs.Answers.{number_answer, flag_answer};
ghost use Rattle.model.specs.Calls.{question};
ghost use Rattle.std.specs.Prelude.{◌≡◌};
ghost use Rattle.export_answers.specs.Replies.{of_flag, of_number};
ghost use Rattle.export_answers.specs.Back.{flag_in, number_in};
ghost use Rattle.export_walks.specs.Saying.{Says};

use export_answers::{Answered, of_flag, of_number};
use memory_records::DownloadingPiece;
use picker_questions::{
    block_size, blocks_per_piece, cursor, dirty, full_piece_size, get_download_queue_size,
    num_pieces, num_seeds, reverse_cursor, total_size,
};

#[unsafe(no_mangle)]
pub extern "C" fn pp_num_pieces(
    words: &[u64],
    cells: &[u16],
    partials: &[DownloadingPiece],
) -> Answered
    ensures { Says of_number number_in (λ o. number_answer o ≡ answer_on (lending words.now cells.now partials.now)
        (question (of_picker num_pieces))) result }
{
    of_number(num_pieces(words, cells, partials))
}

#[unsafe(no_mangle)]
pub extern "C" fn pp_blocks_per_piece(
    words: &[u64],
    cells: &[u16],
    partials: &[DownloadingPiece],
) -> Answered
    ensures { Says of_number number_in (λ o. number_answer o ≡ answer_on (lending words.now cells.now partials.now)
        (question (of_picker ask_blocks_per_piece))) result }
{
    of_number(blocks_per_piece(words, cells, partials))
}

#[unsafe(no_mangle)]
pub extern "C" fn pp_block_size(
    words: &[u64],
    cells: &[u16],
    partials: &[DownloadingPiece],
) -> Answered
    ensures { Says of_number number_in (λ o. number_answer o ≡ answer_on (lending words.now cells.now partials.now)
        (question (of_picker block_size))) result }
{
    of_number(block_size(words, cells, partials))
}

#[unsafe(no_mangle)]
pub extern "C" fn pp_total_size(
    words: &[u64],
    cells: &[u16],
    partials: &[DownloadingPiece],
) -> Answered
    ensures { Says of_number number_in (λ o. number_answer o ≡ answer_on (lending words.now cells.now partials.now)
        (question (of_picker total_size))) result }
{
    of_number(total_size(words, cells, partials))
}

// The length of a whole piece.
#[unsafe(no_mangle)]
pub extern "C" fn pp_full_piece_size(
    words: &[u64],
    cells: &[u16],
    partials: &[DownloadingPiece],
) -> Answered
    ensures { Says of_number number_in (λ o. number_answer o ≡ answer_on (lending words.now cells.now partials.now)
        (question (of_picker full_piece_size))) result }
{
    of_number(full_piece_size(words, cells, partials))
}

#[unsafe(no_mangle)]
pub extern "C" fn pp_num_seeds(
    words: &[u64],
    cells: &[u16],
    partials: &[DownloadingPiece],
) -> Answered
    ensures { Says of_number number_in (λ o. number_answer o ≡ answer_on (lending words.now cells.now partials.now)
        (question (of_picker num_seeds))) result }
{
    of_number(num_seeds(words, cells, partials))
}

#[unsafe(no_mangle)]
pub extern "C" fn pp_cursor(words: &[u64], cells: &[u16], partials: &[DownloadingPiece]) -> Answered
    ensures { Says of_number number_in (λ o. number_answer o ≡ answer_on (lending words.now cells.now partials.now)
        (question (of_picker cursor?))) result }
{
    of_number(cursor(words, cells, partials))
}

#[unsafe(no_mangle)]
pub extern "C" fn pp_reverse_cursor(
    words: &[u64],
    cells: &[u16],
    partials: &[DownloadingPiece],
) -> Answered
    ensures { Says of_number number_in (λ o. number_answer o ≡ answer_on (lending words.now cells.now partials.now)
        (question (of_picker reverse_cursor?))) result }
{
    of_number(reverse_cursor(words, cells, partials))
}

// Whether the list has to be rebuilt.
#[unsafe(no_mangle)]
pub extern "C" fn pp_dirty(words: &[u64], cells: &[u16], partials: &[DownloadingPiece]) -> Answered
    ensures { Says of_flag flag_in (λ o. flag_answer o ≡ answer_on (lending words.now cells.now partials.now) (question (of_picker dirty?)))
        result }
{
    of_flag(dirty(words, cells, partials))
}

// How many partials stand.
#[unsafe(no_mangle)]
pub extern "C" fn pp_get_download_queue_size(
    words: &[u64],
    cells: &[u16],
    partials: &[DownloadingPiece],
) -> Answered
    ensures { Says of_number number_in (λ o. number_answer o ≡ answer_on (lending words.now cells.now partials.now)
        (question (of_picker get_download_queue_size))) result }
{
    of_number(get_download_queue_size(words, cells, partials))
}
