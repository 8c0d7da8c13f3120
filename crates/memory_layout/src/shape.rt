// The shape of a picker's buffers: the number of pieces, of blocks in a whole piece, and of places for partials.
ghost use Rattle.std.specs.Prelude.{◌≡◌, true, ◌≤◌, length};
ghost use Rattle.model.specs.State.{valid_geometry};
ghost use Rattle.memory_layout.specs.Decode.{head_word};
ghost use Rattle.memory_layout.specs.Bounds.{ShapeOf};

use geometry::{blocks_per_piece, num_pieces};
use types::u64_to_usize;

#[derive(Clone, Copy)]
pub struct Shape {
    pub pieces: usize,
    pub blocks: usize,
    pub places: usize,
}

// The shape that the head gives.
pub fn shape_of(words: &[u64]) -> Shape
    requires in_bounds { 16 ≤ length words.now }
    requires words_value { valid_geometry (head_word words.now 0) (head_word words.now 1) ≡ true }
    ensures { ShapeOf result words.now }
{
    let pieces = u64_to_usize(num_pieces(words[0], words[1]));
    let blocks = u64_to_usize(blocks_per_piece(words[1]));
    let places = pieces.min(512);
    Shape {
        pieces,
        blocks,
        places,
    }
}
