// A block whose piece has a partial asked for once more. A step of a change: the whole mark finds the partial and its numbers, or opens
// one.
#![tactic(auto)]

mod requests;

pub use requests::request_block;
