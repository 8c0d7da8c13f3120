// The geometry of a torrent: its pieces and blocks, how many there are and how long each is.
// `total` is the torrent's length and `size` the length of a whole piece, in bytes.
#![tactic(auto)]

mod blocks;
mod limits;
mod parts;
mod pieces;

pub use blocks::{
    block_length, block_size, blocks_at, blocks_in_piece, blocks_per_piece, payload_blocks_in_piece,
};
pub use limits::limit_values;
pub use parts::{lesser, parts_of};
pub use pieces::{num_pieces, number_of, piece_length, piece_size, valid_geometry};
