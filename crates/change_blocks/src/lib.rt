// A block of a standing partial replaced, and the piece's state after it. A step of a change: the picker need not be well-formed.
#![tactic(auto)]

mod blocks;
mod tallies;

pub use blocks::set_block;
pub use tallies::retally;
