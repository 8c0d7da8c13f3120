// Blocks: how long they are, and how many of them a piece has.
ghost use Rattle.std.specs.Prelude.{◌≡◌, ◌/◌, ◌<◌};
ghost use Rattle.types.specs.Piece.{number_of};
ghost use Rattle.model.specs.Bep3.{num_pieces, block_length, block_length_at, block_count, whole_piece_blocks, piece_blocks};
ghost use Rattle.geometry.specs.Numbers.{payload_blocks};

use crate::parts::{part_length, parts_of};
use crate::pieces::{number_of, piece_length, piece_size};
use types::{BLOCK_SIZE, PieceIndex};

// The length of a whole block.
pub fn block_size(size: u64) -> u64
    ensures { result ≡ block_length size }
{
    BLOCK_SIZE.min(size)
}

// The number of blocks of so many bytes. The divisor is a constant where pieces are longer than a block.
fn blocks_of(long: u64, size: u64) -> u64
    ensures { result ≡ block_count long size }
{
    if BLOCK_SIZE < size {
        return parts_of(long, BLOCK_SIZE);
    }
    parts_of(long, size)
}

// The number of blocks of a whole piece.
pub fn blocks_per_piece(size: u64) -> u64
    ensures { result ≡ whole_piece_blocks size }
{
    blocks_of(size, size)
}

// The number of blocks of piece p, for a number that is a word of memory.
pub fn blocks_at(total: u64, size: u64, p: u64) -> u64
    requires { p < num_pieces total size }
    ensures { result ≡ piece_blocks total size p }
{
    blocks_of(piece_length(total, size, p), size)
}

// The number of blocks of a piece.
pub fn blocks_in_piece(total: u64, size: u64, piece: PieceIndex) -> u64
    requires { number_of piece.0 < num_pieces total size }
    ensures { result ≡ piece_blocks total size (number_of piece.0) }
{
    blocks_at(total, size, number_of(piece))
}

// The blocks that so many bytes fill whole. The divisor is a constant where pieces are longer than a block.
fn blocks_filled(bytes: u64, size: u64) -> u64
    requires { 0 < size }
    ensures { result ≡ bytes / block_length size }
{
    if BLOCK_SIZE < size {
        return bytes / BLOCK_SIZE;
    }
    bytes / size
}

// The blocks of a piece without those that `pad` bytes fill whole; 0 where pads would fill more than there are.
pub fn payload_blocks_in_piece(total: u64, size: u64, piece: PieceIndex, pad: u64) -> u64
    requires { number_of piece.0 < num_pieces total size }
    ensures { result ≡ payload_blocks total size (number_of piece.0) pad }
{
    let blocks = blocks_in_piece(total, size, piece);
    let pads = blocks_filled(pad, size);
    blocks.saturating_sub(pads)
}

// The length of block j of a piece.
pub fn block_length(total: u64, size: u64, piece: PieceIndex, j: u64) -> u64
    requires piece_bound { number_of piece.0 < num_pieces total size }
    requires j_bound { j < piece_blocks total size (number_of piece.0) }
    ensures { result ≡ block_length_at total size (number_of piece.0) j }
{
    part_length(piece_size(total, size, piece), block_size(size), j)
}
