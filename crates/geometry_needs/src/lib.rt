// What follows from the geometry of a torrent: how long the lent memory and an image of bytes have to be, and the extents.
// `total` is the torrent's length and `size` the length of a whole piece, in bytes; `n` is the number of pieces, `b` that of blocks of a whole piece.
#![tactic(auto)]

mod extents;
mod needs;

pub use extents::{PieceRange, extent_for, extent_pieces, extent_size, num_extents};
pub use needs::{
    Memory, cells_needed, image_length, image_needed, largest_image, memory_needed,
    partials_needed, words_needed,
};
