// Who works on a partial, and its longest run of free blocks, as far as a pick asks.
#![tactic(auto)]

mod known;
mod requested;

pub use known::known_of;
pub use requested::{RequestedFrom, requested_from};
