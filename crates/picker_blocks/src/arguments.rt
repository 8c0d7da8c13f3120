// What a call of a block takes.
ghost use Rattle.std.specs.Prelude.{◌≡◌};
ghost use Rattle.types.specs.Piece.{number_of};

use types::{PickerOptions, PieceBlock, i32_to_usize};

// A block and the peer that is named with it: none where the flag is false.
#[derive(Drop)]
pub struct BlockPeer {
    pub block: PieceBlock,
    pub has_peer: bool,
    pub peer: u64,
}

// The same, and the options of the pick that gave the block.
#[derive(Drop)]
pub struct BlockRequest {
    pub block: PieceBlock,
    pub has_peer: bool,
    pub peer: u64,
    pub options: PickerOptions,
}

// The block's number as the picker's calls take it: a negative one is past every block.
pub fn block_number(block: PieceBlock) -> usize
    ensures { result ≡ number_of block.block_index }
{
    i32_to_usize(block.block_index)
}
