// How far the download is.
// Written by tools/exports.py, and not by hand.
ghost use Rattle.picker_calls.specs.Calling.{answer_on};
ghost use Rattle.picker_answers.specs.Answers.{flag_answer, number_answer};
ghost use Rattle.model.specs.ask.Questions.{is_finished, of_picker, is_seeding, num_want_left, get_download_queue_sizes};
ghost use Rattle.picker_calls.specs.Cores.{lending};
ghost use Rattle.model.specs.Calls.{question};
ghost use Rattle.std.specs.Prelude.{◌≡◌};
ghost use Rattle.picker_totals.specs.Answers.{sizes_answer};
ghost use Rattle.export_answers.specs.Records.{of_sizes};
ghost use Rattle.export_answers.specs.Replies.{of_flag, of_number};
ghost use Rattle.export_answers.specs.Back.{flag_in, number_in, sizes_in};
ghost use Rattle.export_walks.specs.Saying.{Says};

use export_answers::{Answered, Sized, of_flag, of_number, of_sizes};
use memory_records::DownloadingPiece;
use picker_totals::{get_download_queue_sizes, is_finished, is_seeding, num_want_left};

// Every piece is had or filtered.
#[unsafe(no_mangle)]
pub extern "C" fn pp_is_finished(
    words: &[u64],
    cells: &[u16],
    partials: &[DownloadingPiece],
) -> Answered
    ensures { Says of_flag flag_in (λ o. flag_answer o ≡ answer_on (lending words.now cells.now partials.now)
        (question (of_picker is_finished))) result }
{
    of_flag(is_finished(words, cells, partials))
}

// Every piece is had.
#[unsafe(no_mangle)]
pub extern "C" fn pp_is_seeding(
    words: &[u64],
    cells: &[u16],
    partials: &[DownloadingPiece],
) -> Answered
    ensures { Says of_flag flag_in (λ o. flag_answer o ≡ answer_on (lending words.now cells.now partials.now)
        (question (of_picker is_seeding))) result }
{
    of_flag(is_seeding(words, cells, partials))
}

// As the definition counts: pieces neither had nor filtered, and those that are both.
#[unsafe(no_mangle)]
pub extern "C" fn pp_num_want_left(
    words: &[u64],
    cells: &[u16],
    partials: &[DownloadingPiece],
) -> Answered
    ensures { Says of_number number_in (λ o. number_answer o ≡ answer_on (lending words.now cells.now partials.now)
        (question (of_picker num_want_left))) result }
{
    of_number(num_want_left(words, cells, partials))
}

#[unsafe(no_mangle)]
pub extern "C" fn pp_get_download_queue_sizes(
    words: &[u64],
    cells: &[u16],
    partials: &[DownloadingPiece],
) -> Sized
    ensures { Says of_sizes sizes_in (λ o. sizes_answer o ≡ answer_on (lending words.now cells.now partials.now)
        (question (of_picker get_download_queue_sizes))) result }
{
    of_sizes(get_download_queue_sizes(words, cells, partials))
}
