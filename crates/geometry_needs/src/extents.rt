// Extents: runs of 256 / b pieces, where b is the number of blocks of a piece. There are none where that is 256.
ghost use Rattle.std.specs.Prelude.{◌≡◌, ◌<◌};
ghost use Rattle.types.specs.Piece.{number_of};
ghost use Rattle.model.specs.State.{extent_size, num_extents};
ghost use Rattle.geometry.specs.Numbers.{extent_of, extent_begin, extent_end};

use geometry::{number_of, parts_of};
use types::{MAX_PIECE_AFFINITY_EXTENT, PieceIndex};

// The pieces from `begin` up to and without `end`.
#[derive(Drop)]
pub struct PieceRange {
    pub begin: u64,
    pub end: u64,
}

// How many pieces an extent has; 0 where a piece has no block, or more than an extent has.
pub fn extent_size(b: u64) -> u64
    ensures { result ≡ extent_size b }
{
    if b == 0 {
        return 0;
    }
    MAX_PIECE_AFFINITY_EXTENT / b
}

// How many extents n pieces have.
pub fn num_extents(n: u64, b: u64) -> u64
    ensures { result ≡ num_extents n b }
{
    if b == MAX_PIECE_AFFINITY_EXTENT {
        return 0;
    }
    parts_of(n, extent_size(b))
}

// The extent of a piece.
pub fn extent_for(b: u64, piece: PieceIndex) -> u64
    ensures { result ≡ extent_of b (number_of piece.0) }
{
    let long = extent_size(b);
    if long == 0 {
        return 0;
    }
    number_of(piece) / long
}

// The pieces of extent e, of n pieces in all: the last extent may be shorter.
pub fn extent_pieces(n: u64, b: u64, e: u64) -> PieceRange
    requires { e < num_extents n b }
    ensures { (result.begin ≡ extent_begin b e) × (result.end ≡ extent_end n b e) }
{
    let long = extent_size(b);
    let begin = e * long;
    if n - begin < long {
        return PieceRange {
            begin: begin,
            end: n,
        };
    }
    PieceRange {
        begin: begin,
        end: begin + long,
    }
}
