// The questions that go over the columns of the pieces: how many copies of the torrent there are, and the lists of a number for each piece.
#![tactic(auto)]

mod copies;
mod lists;

pub use copies::{DistributedCopies, distributed_copies};
pub use lists::{get_availability_vec, piece_priorities};
