// The pick program without its input and output: bytes lent, an image and a pick record, and what the definition's program answers to them.
#![tactic(auto)]

mod asking;
mod picking;
mod stored;
mod whole;

pub use whole::job;
