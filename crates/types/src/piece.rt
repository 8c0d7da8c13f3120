// Piece numbers and block numbers, signed as in the Rust.
ghost use Rattle.std.specs.Prelude.{◌≡◌, ◌<◌, pos};
ghost use Rattle.types.specs.Piece.{number_of, index_of, after, largest};

use crate::convert::i32_to_usize;

// The number of a piece. A number of its own kind, so that it cannot be taken for a block or a list place.
#[derive(Clone, Copy, PartialEq, Eq)]
pub struct PieceIndex(pub i32);

impl PieceIndex {
    // The piece at place i of a list.
    pub fn at(i: usize) -> PieceIndex
        requires { i < 2147483648 }
        ensures { (result.0 ≡ pos i) × (number_of result.0 ≡ i) × (index_of result.0 ≡ i) }
    {
        PieceIndex(i as i32)
    }

    // The number of the piece as the picker's calls take it: a negative one is past every piece.
    pub fn number(self) -> usize
        ensures { result ≡ number_of self.0 }
    {
        i32_to_usize(self.0)
    }

    // The place of the piece in a list; 0 where the number is negative, as in the Rust's release build. The picker never asks for it.
    pub fn get(self) -> usize
        ensures { result ≡ index_of self.0 }
    {
        let n = self.0;
        if n < 0 { 0 } else { n as usize }
    }

    // The next piece; the largest number is its own next, where the Rust's sum would wrap.
    pub fn next(self) -> PieceIndex
        ensures { result.0 ≡ after self.0 }
    {
        PieceIndex(self.0.saturating_add(1))
    }
}

// A block: the piece it is part of, and its number within the piece.
#[derive(Clone, Copy, PartialEq, Eq)]
pub struct PieceBlock {
    pub piece_index: PieceIndex,
    pub block_index: i32,
}

impl PieceBlock {
    // No real block: both numbers are the largest there are.
    pub const INVALID: PieceBlock = PieceBlock {
        piece_index: PieceIndex(2147483647),
        block_index: 2147483647,
    };

    // The value of INVALID.
    pub fn invalid() -> PieceBlock
        ensures { (result.piece_index.0 ≡ largest) × (result.block_index ≡ largest) }
    {
        PieceBlock::INVALID
    }
}
