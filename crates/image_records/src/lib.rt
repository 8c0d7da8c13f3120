// The records of an image, each read at a place of the bytes: a byte of kind, and a body whose length the kind fixes.
#![tactic(auto)]

mod block;
mod front;
mod number;
mod partial;
mod pick;

pub use block::{Block, read_block};
pub use front::{body_of, comes, stands};
pub use number::read_number;
pub use partial::read_partial;
pub use pick::{Pick, read_pick};
