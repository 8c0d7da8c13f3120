// What a pick works on: its request and its numbers by value; beside them the lent output, the blocks set aside, the marks of ignored
// pieces and the counters. The steps on one of these that every phase is made of.
#![tactic(auto)]

mod counters;
mod numbers;
mod request;
mod takes;

pub use counters::count;
pub use numbers::{
    PickNumbers, contiguous_above, contiguous_is_zero, contiguous_over, flagged, shorter,
    whole_pieces,
};
pub use request::PickRequest;
pub use takes::{put_aside, take};
