// What the end game chooses from: the Full pieces that the peer has, and the blocks of a partial that another peer was asked for.
#![tactic(auto)]

mod busy;
mod full;

pub use busy::busy_blocks;
pub use full::full_partials;
