// What the partial of a piece adds to a pick: its free blocks taken or set aside, by who works on it and by the run that is wanted.
#![tactic(auto)]

mod adding;
mod free;
mod partial;

pub use partial::{add_blocks_downloading, blocks_of, open_to};
