// The partials that a pick may take from, in a row of places: found in one pass over the rows; and the numbers that order them by rarity.
#![tactic(auto)]

mod found;
mod order;

pub use found::{Scan, scan_partials};
pub use order::keys_of;
