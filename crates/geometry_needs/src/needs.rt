// What a picker needs of the three lent buffers, and an image of bytes.
ghost use Rattle.std.specs.Prelude.{◌≡◌};
ghost use Rattle.model.specs.Memory.{partials_needed, words_needed, cells_needed};
ghost use Rattle.geometry_needs.specs.Needs.{Small, Parts, image_length, largest_image, memory_of, Lengths, bytes_for};

use geometry::{blocks_per_piece, lesser, num_pieces, valid_geometry};
use types::{MAX_EXTENTS, MAX_PARTIALS};

// Words of the head, and of each piece; a block of a partial has one.
const HEAD_WORDS: u64 = 16;

const PIECE_WORDS: u64 = 2;

// Cells of each piece and of each block of a partial.
const PIECE_CELLS: u64 = 4;

const BLOCK_CELLS: u64 = 3;

// Bytes of the records of an image: the head, and of each piece, partial, block, extent and list place.
const HEAD_BYTES: u64 = 24;

const PIECE_BYTES: u64 = 10;

const PARTIAL_BYTES: u64 = 6;

const BLOCK_BYTES: u64 = 13;

const EXTENT_BYTES: u64 = 5;

const PLACE_BYTES: u64 = 5;

// Lengths of the three buffers: words of 64 bits, cells of 16 bits, records of partials.
#[derive(Drop)]
pub struct Memory {
    pub words: u64,
    pub cells: u64,
    pub partials: u64,
}

// Records for a picker of n pieces.
pub fn partials_needed(n: u64) -> u64
    ensures { result ≡ partials_needed n }
{
    lesser(n, MAX_PARTIALS)
}

// Words for a picker of n pieces of b blocks.
pub fn words_needed(n: u64, b: u64) -> u64
    requires { Small n b }
    ensures { result ≡ words_needed n b }
{
    HEAD_WORDS + PIECE_WORDS * n + partials_needed(n) * b
}

// Cells for a picker of n pieces of b blocks.
pub fn cells_needed(n: u64, b: u64) -> u64
    requires { Small n b }
    ensures { result ≡ cells_needed n b }
{
    PIECE_CELLS * n + BLOCK_CELLS * (partials_needed(n) * b)
}

// Bytes of an image of n pieces, so many partials with so many blocks together, extents and list places.
pub fn image_length(n: u64, partials: u64, blocks: u64, extents: u64, places: u64) -> u64
    requires { Parts n partials blocks extents places }
    ensures { result ≡ image_length n partials blocks extents places }
{
    HEAD_BYTES
        + PIECE_BYTES * n
        + PARTIAL_BYTES * partials
        + BLOCK_BYTES * blocks
        + EXTENT_BYTES * extents
        + PLACE_BYTES * places
}

// Bytes that no image of a picker of n pieces of b blocks passes.
pub fn largest_image(n: u64, b: u64) -> u64
    requires { Small n b }
    ensures { result ≡ largest_image n b }
{
    let partials = lesser(n, MAX_PARTIALS);
    image_length(n, partials, partials * b, MAX_EXTENTS, n)
}

// All three for a picker of this geometry; 0 each where it is not valid.
pub fn memory_needed(total: u64, size: u64) -> Memory
    ensures { Lengths (memory_of total size) result.words result.cells result.partials }
{
    if valid_geometry(total, size) {
        let n = num_pieces(total, size);
        let b = blocks_per_piece(size);
        return Memory {
            words: words_needed(n, b),
            cells: cells_needed(n, b),
            partials: partials_needed(n),
        };
    }
    Memory {
        words: 0,
        cells: 0,
        partials: 0,
    }
}

// Bytes that no image of a picker of this geometry passes; 0 where it is not valid.
pub fn image_needed(total: u64, size: u64) -> u64
    ensures { result ≡ bytes_for total size }
{
    if valid_geometry(total, size) {
        return largest_image(num_pieces(total, size), blocks_per_piece(size));
    }
    0
}
