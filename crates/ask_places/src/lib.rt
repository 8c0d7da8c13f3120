// What stands at a place: a partial by rising piece, a recent extent, a piece of the list.
#![tactic(auto)]

ghost use Rattle.std.specs.Prelude.{◌≡◌, ◌≤◌, length};
ghost use Rattle.model.specs.State.{max_extents};
ghost use Rattle.model.specs.ask.Questions.{reply, partial_at, recent_extent, ask_list_place};
ghost use Rattle.memory_layout.specs.Decode.{head_word};
ghost use Rattle.memory_layout.specs.Bounds.{WordsSpan};
ghost use Rattle.memory_fields.specs.Reading.{WordsSay};
ghost use Rattle.ask_picker.specs.Telling.{RowsSay};
ghost use Rattle.ask_places.specs.Placed.{placed_reply};

use memory_fields::{is_dirty, list_length, num_recent_extents};
use memory_layout::Shape;
use types::{u32_to_usize, usize_to_u64};

// A number there, nothing there, or a list that has to be rebuilt before it has places.
#[derive(Drop)]
pub enum Placed {
    Number(u64),
    Nothing,
    Stale,
}

// The piece of partial k.
pub fn partial_at(rows: &[u32], live: usize, k: usize) -> Placed
    requires { (live ≤ 512) × (length rows.now ≡ 1536) }
    ensures { RowsSay live rows.now (λ d. reply d (partial_at k)) (placed_reply result) }
{
    if k < live {
        return Placed::Number(usize_to_u64(u32_to_usize(rows[k])));
    }
    Placed::Nothing
}

// Extent k, the oldest first.
pub fn recent_extent(words: &[u64], s: Shape, k: usize) -> Placed
    requires words_span { WordsSpan s words.now }
    requires words_bound { head_word words.now 8 ≤ max_extents }
    ensures { WordsSay s words.now (λ d. reply d (recent_extent k)) (placed_reply result) }
{
    if k < num_recent_extents(words, s) {
        return Placed::Number(memory_fields::recent_extent(words, s, k));
    }
    Placed::Nothing
}

// The piece at place k of the list.
pub fn list_place(words: &[u64], s: Shape, k: usize) -> Placed
    requires words_span { WordsSpan s words.now }
    requires words_bound { head_word words.now 6 ≤ s.pieces }
    ensures { WordsSay s words.now (λ d. reply d (ask_list_place k)) (placed_reply result) }
{
    if is_dirty(words, s) {
        return Placed::Stale;
    }
    if k < list_length(words, s) {
        return Placed::Number(usize_to_u64(memory_list::list_place(words, s, k)));
    }
    Placed::Nothing
}
