// Blocks of Open pieces: without a run as many as are wanted of one piece, else the whole span of pieces around it.
#![tactic(auto)]

mod blocks;
mod pieces;
mod spans;

pub use blocks::{take_blocks, take_payload};
pub use pieces::add_new_piece;
pub use spans::{span_step, take_span};
