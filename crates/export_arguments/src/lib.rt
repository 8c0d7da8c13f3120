// Arguments from C: numbers and structs of numbers, and each as what the public call takes.
#![tactic(auto)]

mod blocks;
mod picks;
mod pieces;

pub use blocks::{BlockPlace, NamedBlock, RequestedBlock, block_of, named, requested};
pub use picks::{PickAsked, asked};
pub use pieces::{PriorityOf, piece, place, priority_of};
