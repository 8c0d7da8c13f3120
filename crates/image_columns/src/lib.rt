// Parts of an accepted image stored into lent words, cells and rows: the head, the columns of the pieces, a partial with its blocks.
// Each field of the image's records becomes a column of a buffer.
#![tactic(auto)]

mod blocks;
mod head;
mod offsets;
mod partial;
mod pieces;

pub use head::store_head;
pub use partial::store_partial;
pub use pieces::store_pieces;
