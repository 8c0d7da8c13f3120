// The partials of an image, each with its blocks: one for every piece that is not Open, by rising piece.
#![tactic(auto)]

mod blocks;
mod partial;
mod partials;

pub use partials::read_partials;
