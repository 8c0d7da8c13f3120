// The test of a partial's blocks, by the cells of a place, and how many of them are in each state. It relies on memory_layout alone.
#![tactic(auto)]

mod blocks;
mod counts;

pub use blocks::{Counted, Counts, blocks_ok, one_if};
pub use counts::set_counts;
