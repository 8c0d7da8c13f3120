// A piece visited in a walk of a pick, and the walk over the suggested pieces. A function that has no counters leaves them as they are.
#![tactic(auto)]

mod suggestions;
mod visits;

pub use suggestions::pick_suggested;
pub use visits::{in_range, visit_below_top, visit_listed, visit_outside};
