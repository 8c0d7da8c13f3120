// The lowest free place for a partial's blocks, from the live records as rows of numbers.
#![tactic(auto)]

mod places;

pub use places::free_place;
