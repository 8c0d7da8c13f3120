// Counts of pieces and of pad bytes.
// Written by tools/exports.py, and not by hand.
ghost use Rattle.picker_calls.specs.Calling.{answer_on};
ghost use Rattle.picker_calls.specs.Cores.{lending};
ghost use Rattle.model.specs.ask.Questions.{num_pad_bytes, of_picker, ask_num_have, ask_num_filtered, ask_num_have_filtered, want};
ghost use Rattle.model.specs.ask.Questions.{have_want, have, all_pieces};
ghost use Rattle.picker_answers.specs.Answers.{number_answer};
ghost use Rattle.model.specs.Calls.{question};
ghost use Rattle.std.specs.Prelude.{◌≡◌};
ghost use Rattle.picker_totals.specs.Answers.{count_answer};
ghost use Rattle.export_answers.specs.Records.{of_count};
ghost use Rattle.export_answers.specs.Replies.{of_number};
ghost use Rattle.export_answers.specs.Back.{count_in, number_in};
ghost use Rattle.export_walks.specs.Saying.{Says};

use export_answers::{Answered, Counted, of_count, of_number};
use memory_records::DownloadingPiece;
use picker_totals::{
    all_pieces, have, have_want, num_filtered, num_have, num_have_filtered, num_pad_bytes, want,
};

// The pad bytes of all pieces.
#[unsafe(no_mangle)]
pub extern "C" fn pp_num_pad_bytes(
    words: &[u64],
    cells: &[u16],
    partials: &[DownloadingPiece],
) -> Answered
    ensures { Says of_number number_in (λ o. number_answer o ≡ answer_on (lending words.now cells.now partials.now)
        (question (of_picker num_pad_bytes))) result }
{
    of_number(num_pad_bytes(words, cells, partials))
}

// Pieces that are flushed, or passed while still partials.
#[unsafe(no_mangle)]
pub extern "C" fn pp_num_have(
    words: &[u64],
    cells: &[u16],
    partials: &[DownloadingPiece],
) -> Answered
    ensures { Says of_number number_in (λ o. number_answer o ≡ answer_on (lending words.now cells.now partials.now)
        (question (of_picker ask_num_have))) result }
{
    of_number(num_have(words, cells, partials))
}

// Pieces of priority 0 that are not had.
#[unsafe(no_mangle)]
pub extern "C" fn pp_num_filtered(
    words: &[u64],
    cells: &[u16],
    partials: &[DownloadingPiece],
) -> Answered
    ensures { Says of_number number_in (λ o. number_answer o ≡ answer_on (lending words.now cells.now partials.now)
        (question (of_picker ask_num_filtered))) result }
{
    of_number(num_filtered(words, cells, partials))
}

// Pieces of priority 0 that are.
#[unsafe(no_mangle)]
pub extern "C" fn pp_num_have_filtered(
    words: &[u64],
    cells: &[u16],
    partials: &[DownloadingPiece],
) -> Answered
    ensures { Says of_number number_in (λ o. number_answer o ≡ answer_on (lending words.now cells.now partials.now)
        (question (of_picker ask_num_have_filtered))) result }
{
    of_number(num_have_filtered(words, cells, partials))
}

// Pieces that are not filtered.
#[unsafe(no_mangle)]
pub extern "C" fn pp_want(words: &[u64], cells: &[u16], partials: &[DownloadingPiece]) -> Counted
    ensures { Says of_count count_in (λ o. count_answer o ≡ answer_on (lending words.now cells.now partials.now)
        (question (of_picker want))) result }
{
    of_count(want(words, cells, partials))
}

// Those of them that are had.
#[unsafe(no_mangle)]
pub extern "C" fn pp_have_want(
    words: &[u64],
    cells: &[u16],
    partials: &[DownloadingPiece],
) -> Counted
    ensures { Says of_count count_in (λ o. count_answer o ≡ answer_on (lending words.now cells.now partials.now)
        (question (of_picker have_want))) result }
{
    of_count(have_want(words, cells, partials))
}

// Pieces that are had.
#[unsafe(no_mangle)]
pub extern "C" fn pp_have(words: &[u64], cells: &[u16], partials: &[DownloadingPiece]) -> Counted
    ensures { Says of_count count_in (λ o. count_answer o ≡ answer_on (lending words.now cells.now partials.now)
        (question (of_picker have))) result }
{
    of_count(have(words, cells, partials))
}

#[unsafe(no_mangle)]
pub extern "C" fn pp_all_pieces(
    words: &[u64],
    cells: &[u16],
    partials: &[DownloadingPiece],
) -> Counted
    ensures { Says of_count count_in (λ o. count_answer o ≡ answer_on (lending words.now cells.now partials.now)
        (question (of_picker all_pieces))) result }
{
    of_count(all_pieces(words, cells, partials))
}
