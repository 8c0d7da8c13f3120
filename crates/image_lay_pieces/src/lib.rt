// Pieces laid out as columns of buffers.
#![tactic(auto)]

mod pieces;

pub use pieces::lay_pieces;
