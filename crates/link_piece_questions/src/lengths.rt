// Questions of `ask_piece` for callers in C and Rust, each with what it asks and answers.
// Written by tools/asks.py, and not by hand.
ghost use Rattle.std.specs.Prelude.{◌<◌};
ghost use Rattle.model.specs.ask.Questions.{reply_piece, one, ask_blocks_in_piece, ask_payload_blocks_in_piece, piece_size};
ghost use Rattle.memory_layout.specs.Bounds.{ShapeOf, WordsSpan};
ghost use Rattle.memory_fields.specs.Reading.{HeadSays, WordsSay};
ghost use Rattle.link_piece_questions.specs.Lending.{shaped};

use link_lists::Geometry;
use memory_layout::Shape;

#[unsafe(no_mangle)]
pub extern "C" fn aq_piece_size(words: &[u64], g: Geometry, i: usize) -> u64
    requires words_span { WordsSpan (shaped g) words.now }
    requires shape_of { ShapeOf (shaped g) words.now }
    requires i_lt_pieces { i < g.pieces }
    ensures { HeadSays words.now (λ d. reply_piece d i piece_size) (one result) }
{
    let s = Shape::from(g);
    ask_piece::piece_size(words, s, i)
}

#[unsafe(no_mangle)]
pub extern "C" fn aq_blocks_in_piece(words: &[u64], g: Geometry, i: usize) -> u64
    requires words_span { WordsSpan (shaped g) words.now }
    requires shape_of { ShapeOf (shaped g) words.now }
    requires i_lt_pieces { i < g.pieces }
    ensures { HeadSays words.now (λ d. reply_piece d i ask_blocks_in_piece) (one result) }
{
    let s = Shape::from(g);
    ask_piece::blocks_in_piece(words, s, i)
}

#[unsafe(no_mangle)]
pub extern "C" fn aq_payload_blocks_in_piece(words: &[u64], g: Geometry, i: usize) -> u64
    requires words_span { WordsSpan (shaped g) words.now }
    requires shape_of { ShapeOf (shaped g) words.now }
    requires i_lt_pieces { i < g.pieces }
    ensures { WordsSay (shaped g) words.now (λ d. reply_piece d i ask_payload_blocks_in_piece) (one result) }
{
    let s = Shape::from(g);
    ask_piece::payload_blocks_in_piece(words, s, i)
}
