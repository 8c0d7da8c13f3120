// The last parts of an image: extents, and the places of a list that is not dirty.
#![tactic(auto)]

mod extents;
mod order;

pub use extents::read_extents;
pub use order::read_listing;
