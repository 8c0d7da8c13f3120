// The random walk's own run: all blocks of the pieces of a span, pads too, each of them counted.
#![tactic(auto)]

mod blocks;
mod spans;

pub use blocks::take_all;
pub use spans::{RandomSpan, random_step, take_random_span};
