// What stands at a place.
// Written by tools/exports.py, and not by hand.
ghost use Rattle.picker_calls.specs.Calling.{answer_on};
ghost use Rattle.picker_calls.specs.Cores.{lending};
ghost use Rattle.types.specs.Piece.{number_of};
ghost use Rattle.model.specs.ask.Questions.{partial_at, recent_extent, ask_list_place};
ghost use Rattle.picker_questions.specs.Answers.{place_answer};
ghost use Rattle.model.specs.Calls.{question};
ghost use Rattle.std.specs.Prelude.{◌≡◌};
ghost use Rattle.export_answers.specs.Replies.{of_place};
ghost use Rattle.export_answers.specs.Back.{place_in};
ghost use Rattle.export_walks.specs.Saying.{Says};

use export_answers::{Answered, of_place};
use memory_records::DownloadingPiece;
use picker_questions::{list_place, partial_at, recent_extent};

// The piece of the partial at a place, by rising piece.
#[unsafe(no_mangle)]
pub extern "C" fn pp_partial_at(
    words: &[u64],
    cells: &[u16],
    partials: &[DownloadingPiece],
    place: i32,
) -> Answered
    ensures { Says of_place place_in (λ o. place_answer o ≡ answer_on (lending words.now cells.now partials.now)
        (question (partial_at (number_of place)))) result }
{
    of_place(partial_at(words, cells, partials, export_arguments::place(place)))
}

// The extent at a place, the oldest first.
#[unsafe(no_mangle)]
pub extern "C" fn pp_recent_extent(
    words: &[u64],
    cells: &[u16],
    partials: &[DownloadingPiece],
    place: i32,
) -> Answered
    ensures { Says of_place place_in (λ o. place_answer o ≡ answer_on (lending words.now cells.now partials.now)
        (question (recent_extent (number_of place)))) result }
{
    of_place(recent_extent(words, cells, partials, export_arguments::place(place)))
}

// The piece at a place of the list.
#[unsafe(no_mangle)]
pub extern "C" fn pp_list_place(
    words: &[u64],
    cells: &[u16],
    partials: &[DownloadingPiece],
    place: i32,
) -> Answered
    ensures { Says of_place place_in (λ o. place_answer o ≡ answer_on (lending words.now cells.now partials.now)
        (question (ask_list_place (number_of place)))) result }
{
    of_place(list_place(words, cells, partials, export_arguments::place(place)))
}
