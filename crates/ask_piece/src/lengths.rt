// How long a piece is, in bytes and in blocks.
ghost use Rattle.std.specs.Prelude.{◌<◌};
ghost use Rattle.model.specs.ask.Questions.{reply_piece, one, ask_blocks_in_piece, ask_payload_blocks_in_piece, piece_size};
ghost use Rattle.memory_layout.specs.Bounds.{ShapeOf, WordsSpan};
ghost use Rattle.memory_fields.specs.Reading.{HeadSays, WordsSay};

use memory_layout::{Shape, head_word};
use types::usize_to_u64;

pub fn piece_size(words: &[u64], s: Shape, i: usize) -> u64
    requires words_span { WordsSpan s words.now }
    requires shape_of { ShapeOf s words.now }
    requires i_lt_pieces { i < s.pieces }
    ensures { HeadSays words.now (λ d. reply_piece d i piece_size) (one result) }
{
    geometry::piece_length(head_word(words, 0), head_word(words, 1), usize_to_u64(i))
}

pub fn blocks_in_piece(words: &[u64], s: Shape, i: usize) -> u64
    requires words_span { WordsSpan s words.now }
    requires shape_of { ShapeOf s words.now }
    requires i_lt_pieces { i < s.pieces }
    ensures { HeadSays words.now (λ d. reply_piece d i ask_blocks_in_piece) (one result) }
{
    geometry::blocks_at(head_word(words, 0), head_word(words, 1), usize_to_u64(i))
}

// The blocks without those that pad bytes fill whole.
pub fn payload_blocks_in_piece(words: &[u64], s: Shape, i: usize) -> u64
    requires words_span { WordsSpan s words.now }
    requires shape_of { ShapeOf s words.now }
    requires i_lt_pieces { i < s.pieces }
    ensures { WordsSay s words.now (λ d. reply_piece d i ask_payload_blocks_in_piece) (one result) }
{
    let blocks = blocks_in_piece(words, s, i);
    let pad = memory_fields::pad_bytes(words, s, i);
    let pads = pad / geometry::block_size(head_word(words, 1));
    blocks.saturating_sub(pads)
}
