// A partial closed with the last of its blocks that is at work, or flushed with the last that comes to disk, and what a change by a block
// comes to (`specs/Giving`). Steps of a change.
#![tactic(auto)]

mod closing;
mod flushing;

pub use closing::{Given, close_partial, is_last};
pub use flushing::is_done;
