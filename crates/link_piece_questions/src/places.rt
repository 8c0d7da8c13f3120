// Questions of `ask_places` for callers in C and Rust, each with what it asks and answers.
// Written by tools/asks.py, and not by hand.
ghost use Rattle.std.specs.Prelude.{◌≡◌, ◌≤◌, length};
ghost use Rattle.model.specs.State.{max_extents};
ghost use Rattle.model.specs.ask.Questions.{reply, partial_at, recent_extent, ask_list_place};
ghost use Rattle.memory_layout.specs.Decode.{head_word};
ghost use Rattle.memory_layout.specs.Bounds.{WordsSpan};
ghost use Rattle.memory_fields.specs.Reading.{WordsSay};
ghost use Rattle.ask_picker.specs.Telling.{RowsSay};
ghost use Rattle.ask_places.specs.Placed.{placed_reply};
ghost use Rattle.link_piece_questions.specs.Lending.{shaped};
ghost use Rattle.link_piece_questions.specs.Answers.{placed_told};

use crate::answers::Told;
use link_lists::Geometry;
use memory_layout::Shape;

#[unsafe(no_mangle)]
pub extern "C" fn aq_partial_at(rows: &[u32], live: usize, k: usize) -> Told
    requires { (live ≤ 512) × (length rows.now ≡ 1536) }
    ensures { RowsSay live rows.now (λ d. reply d (partial_at k)) (placed_reply (placed_told result)) }
{
    Told::from(ask_places::partial_at(rows, live, k))
}

#[unsafe(no_mangle)]
pub extern "C" fn aq_recent_extent(words: &[u64], g: Geometry, k: usize) -> Told
    requires words_span { WordsSpan (shaped g) words.now }
    requires words_bound { head_word words.now 8 ≤ max_extents }
    ensures { WordsSay (shaped g) words.now (λ d. reply d (recent_extent k)) (placed_reply (placed_told result)) }
{
    let s = Shape::from(g);
    Told::from(ask_places::recent_extent(words, s, k))
}

#[unsafe(no_mangle)]
pub extern "C" fn aq_list_place(words: &[u64], g: Geometry, k: usize) -> Told
    requires words_span { WordsSpan (shaped g) words.now }
    requires words_bound { head_word words.now 6 ≤ g.pieces }
    ensures { WordsSay (shaped g) words.now (λ d. reply d (ask_list_place k)) (placed_reply (placed_told result)) }
{
    let s = Shape::from(g);
    Told::from(ask_places::list_place(words, s, k))
}
