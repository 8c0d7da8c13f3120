// What the public pick is asked, in the Rust's types, and the judge of it.
#![tactic(auto)]

mod arguments;
mod judge;

pub use arguments::{PickInput, places_free, request};
pub use judge::judge_pick;
