// Pieces: which geometries are valid, how many pieces there are, and how long each is.
ghost use Rattle.std.specs.Prelude.{◌≡◌, ◌<◌};
ghost use Rattle.types.specs.Piece.{number_of};
ghost use Rattle.model.specs.Bep3.{num_pieces, piece_length};
ghost use Rattle.model.specs.State.{valid_geometry};

use crate::parts::{part_length, parts_of};
use types::{MAX_PIECE_SIZE, MAX_PIECES, PieceIndex};

// A picker can be made of it. The limit on the number of pieces is tested as one on the total, so that nothing wraps.
pub fn valid_geometry(total: u64, size: u64) -> bool
    ensures { result ≡ valid_geometry total size }
{
    if total < 1 {
        return false;
    }
    if size < 1 {
        return false;
    }
    if size > MAX_PIECE_SIZE {
        return false;
    }
    total <= MAX_PIECES * size
}

// The number of pieces.
pub fn num_pieces(total: u64, size: u64) -> u64
    ensures { result ≡ num_pieces total size }
{
    parts_of(total, size)
}

// The length of piece p, for a number that is a word of memory: the last piece may be shorter.
pub fn piece_length(total: u64, size: u64, p: u64) -> u64
    requires { p < num_pieces total size }
    ensures { result ≡ piece_length total size p }
{
    part_length(total, size, p)
}

// The number of a piece as a word.
pub fn number_of(piece: PieceIndex) -> u64
    ensures { result ≡ number_of piece.0 }
{
    let i = piece.number();
    types::usize_to_u64(i)
}

// The length of a piece.
pub fn piece_size(total: u64, size: u64, piece: PieceIndex) -> u64
    requires { number_of piece.0 < num_pieces total size }
    ensures { result ≡ piece_length total size (number_of piece.0) }
{
    piece_length(total, size, number_of(piece))
}
