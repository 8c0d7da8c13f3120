// The judge of any bytes: an image, or the place of the first fault. Nothing is written.
#![tactic(auto)]

mod front;
mod whole;

pub use front::read_front;
pub use whole::{judge_image, judge_job};
