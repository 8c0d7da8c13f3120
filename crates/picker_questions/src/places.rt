// What stands at a place: a partial by rising piece, a recent extent, a piece of the list.
// Written by tools/publics.py, and not by hand.
ghost use Rattle.std.specs.Prelude.{◌≡◌, length};
ghost use Rattle.types.specs.Piece.{number_of};
ghost use Rattle.model.specs.ask.Questions.{partial_at, recent_extent, ask_list_place};
ghost use Rattle.model.specs.Calls.{question};
ghost use Rattle.picker_calls.specs.Calling.{answer_on};
ghost use Rattle.picker_calls.specs.Cores.{lending};
ghost use Rattle.picker_answers.specs.Admitting.{CoreAnswered};
ghost use Rattle.picker_questions.specs.Answers.{place_answer};

use ask_places::Placed;
use memory_records::{DownloadingPiece, live_records, unpack};
use picker_answers::{admit_picker, admit_place};
use types::{Refusal, i32_to_usize};

fn partial_at_core(
    words: &[u64],
    cells: &[u16],
    rows: &[u32],
    lent: usize,
    place: i32,
) -> Result<Placed, Refusal>
    requires { length rows.now ≡ 1536 }
    ensures { CoreAnswered words.now cells.now rows.now lent
        (partial_at (number_of place)) (place_answer result) }
{
    let mut counts = [0; 1536];
    let k = i32_to_usize(place);
    let picker = admit_picker(words, cells, rows, lent, &mut counts)?;
    Ok(ask_places::partial_at(rows, picker.live, k))
}

// The piece of the partial at a place, by rising piece.
pub fn partial_at(
    words: &[u64],
    cells: &[u16],
    partials: &[DownloadingPiece],
    place: i32,
) -> Result<Placed, Refusal>
    ensures { place_answer result ≡ answer_on (lending words.now cells.now partials.now)
        (question (partial_at (number_of place))) }
{
    let mut rows = [0; 1536];
    let live = live_records(words);
    let lent = unpack(partials, live, &mut rows);
    partial_at_core(words, cells, &rows, lent, place)
}

fn recent_extent_core(
    words: &[u64],
    cells: &[u16],
    rows: &[u32],
    lent: usize,
    place: i32,
) -> Result<Placed, Refusal>
    requires { length rows.now ≡ 1536 }
    ensures { CoreAnswered words.now cells.now rows.now lent
        (recent_extent (number_of place)) (place_answer result) }
{
    let mut counts = [0; 1536];
    let k = i32_to_usize(place);
    let picker = admit_picker(words, cells, rows, lent, &mut counts)?;
    Ok(ask_places::recent_extent(words, picker.shape, k))
}

// The extent at a place, the oldest first.
pub fn recent_extent(
    words: &[u64],
    cells: &[u16],
    partials: &[DownloadingPiece],
    place: i32,
) -> Result<Placed, Refusal>
    ensures { place_answer result ≡ answer_on (lending words.now cells.now partials.now)
        (question (recent_extent (number_of place))) }
{
    let mut rows = [0; 1536];
    let live = live_records(words);
    let lent = unpack(partials, live, &mut rows);
    recent_extent_core(words, cells, &rows, lent, place)
}

fn list_place_core(
    words: &[u64],
    cells: &[u16],
    rows: &[u32],
    lent: usize,
    place: i32,
) -> Result<Placed, Refusal>
    requires { length rows.now ≡ 1536 }
    ensures { CoreAnswered words.now cells.now rows.now lent
        (ask_list_place (number_of place)) (place_answer result) }
{
    let mut counts = [0; 1536];
    let k = i32_to_usize(place);
    let picker = admit_place(words, cells, rows, lent, &mut counts, k)?;
    Ok(ask_places::list_place(words, picker.shape, k))
}

// The piece at a place of the list.
pub fn list_place(
    words: &[u64],
    cells: &[u16],
    partials: &[DownloadingPiece],
    place: i32,
) -> Result<Placed, Refusal>
    ensures { place_answer result ≡ answer_on (lending words.now cells.now partials.now)
        (question (ask_list_place (number_of place))) }
{
    let mut rows = [0; 1536];
    let live = live_records(words);
    let lent = unpack(partials, live, &mut rows);
    list_place_core(words, cells, &rows, lent, place)
}
