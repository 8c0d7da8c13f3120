// The phase of a pick that goes by rarity.
#![tactic(auto)]

mod listed;
mod rarest;

pub use rarest::pick_rarest;
