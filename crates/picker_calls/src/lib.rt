// What every public call is made of: the memory admitted or refused, and what a call answers.
#![tactic(auto)]

mod admission;
mod outcomes;

pub use admission::admit;
pub use outcomes::{CallStep, Outcome};
