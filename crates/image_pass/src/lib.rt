// The quick pass over the blocks of a partial in an image: it tells whether all of them are well, but not which one is not.
#![tactic(auto)]

mod pass;
mod quads;
mod tally;

pub use pass::pass_blocks;
pub use tally::Tally;
