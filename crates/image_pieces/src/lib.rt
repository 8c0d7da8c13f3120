// The head and the pieces of an image, judged record by record behind a quick pass; the rank of each piece is kept for the list.
#![tactic(auto)]

mod head;
mod piece;
mod pieces;
mod stretch;

pub use head::{Head, read_head};
pub use piece::{Piece, read_piece};
pub use pieces::read_pieces;
