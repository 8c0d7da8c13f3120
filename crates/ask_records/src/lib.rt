// The questions of a piece that are answered by a record for each block, written once into a lent list. What lies behind stays as it was.
#![tactic(auto)]

mod blocks;
mod peers;
mod words;

pub use blocks::blocks_for_piece;
pub use peers::get_downloaders;
pub use words::{bit_of, put_words};
