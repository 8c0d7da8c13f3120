// What the public calls of a block share: what they take, and their judges.
#![tactic(auto)]

mod arguments;
mod blocks;
mod marks;

pub use arguments::{BlockPeer, BlockRequest, block_number};
pub use blocks::judge_block;
pub use marks::{judge_downloading, judge_finished, judge_writing};
