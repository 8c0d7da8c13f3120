// A block, alone, with a peer, and with a peer and options.
ghost use Rattle.std.specs.Prelude.{◌≡◌};
ghost use Rattle.export_arguments.specs.Arguments.{block_of, named_block, requested_block};

use picker_blocks::{BlockPeer, BlockRequest};
use types::{PickerOptions, PieceBlock, PieceIndex};

#[repr(C)]
#[derive(Drop)]
pub struct BlockPlace {
    pub piece: i32,
    pub block: i32,
}

// There is no peer where `has_peer` is 0.
#[repr(C)]
#[derive(Drop)]
pub struct NamedBlock {
    pub piece: i32,
    pub block: i32,
    pub peer: u64,
    pub has_peer: u32,
}

#[repr(C)]
#[derive(Drop)]
pub struct RequestedBlock {
    pub piece: i32,
    pub block: i32,
    pub peer: u64,
    pub has_peer: u32,
    pub options: u16,
}

pub fn block_of(x: BlockPlace) -> PieceBlock
    ensures { result ≡ block_of x }
{
    PieceBlock {
        piece_index: PieceIndex(x.piece),
        block_index: x.block,
    }
}

pub fn named(x: NamedBlock) -> BlockPeer
    ensures { result ≡ named_block x }
{
    BlockPeer {
        block: PieceBlock {
            piece_index: PieceIndex(x.piece),
            block_index: x.block,
        },
        has_peer: 0 < x.has_peer,
        peer: x.peer,
    }
}

pub fn requested(x: RequestedBlock) -> BlockRequest
    ensures { result ≡ requested_block x }
{
    BlockRequest {
        block: PieceBlock {
            piece_index: PieceIndex(x.piece),
            block_index: x.block,
        },
        has_peer: 0 < x.has_peer,
        peer: x.peer,
        options: PickerOptions(x.options),
    }
}
