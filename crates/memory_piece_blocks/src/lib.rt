// The number of blocks of a piece, and of those that hold more than pad bytes, by the geometry in the head words.
#![tactic(auto)]

ghost use Rattle.std.specs.Prelude.{◌≡◌, ◌<◌};
ghost use Rattle.model.specs.State.{payload_blocks_in_piece};
ghost use Rattle.memory_layout.specs.Decode.{blocks_of};
ghost use Rattle.memory_layout.specs.Bounds.{WordsSpan, ShapeOf};
ghost use Rattle.memory_fields.specs.Reading.{WordsSay};

use geometry::{blocks_at, payload_blocks_in_piece};
use memory_fields::pad_bytes;
use memory_layout::{Shape, head_word};
use types::{PieceIndex, u64_to_usize, usize_to_u64};

// The number of blocks of piece i. Every piece but the last one is whole.
pub fn blocks_in_piece(words: &[u64], s: Shape, i: usize) -> usize
    requires words_span { (WordsSpan s words.now) × (ShapeOf s words.now) }
    requires i_lt_pieces { i < s.pieces }
    ensures { result ≡ blocks_of words.now i }
{
    if i + 1 < s.pieces {
        return s.blocks;
    }
    let total = head_word(words, 0);
    let size = head_word(words, 1);
    u64_to_usize(blocks_at(total, size, usize_to_u64(i)))
}

// The number of blocks of piece i that hold more than pad bytes.
pub fn payload_blocks(words: &[u64], s: Shape, i: usize) -> usize
    requires words_span { (WordsSpan s words.now) × (ShapeOf s words.now) }
    requires i_lt_pieces { i < s.pieces }
    ensures { WordsSay s words.now (λ d. payload_blocks_in_piece d i) result }
{
    let total = head_word(words, 0);
    let size = head_word(words, 1);
    let pad = pad_bytes(words, s, i);
    let piece = PieceIndex::at(i);
    u64_to_usize(payload_blocks_in_piece(total, size, piece, pad))
}
