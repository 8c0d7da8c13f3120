// The first phase of a pick: partials before all else, where they come first.
#![tactic(auto)]

mod phase;
mod rarest;
mod walks;

pub use phase::pick_partials;
