// The parts of an image, each written from the buffers behind the part before it: head, pieces, partials with their blocks, extents, list
// places. A part answers the place behind it. What is before and behind stays as it was.
#![tactic(auto)]

mod blocks;
mod head;
mod numbers;
mod partials;
mod pieces;

pub use head::put_head_of;
pub use numbers::{put_extents, put_list};
pub use partials::put_partials;
pub use pieces::put_pieces;
