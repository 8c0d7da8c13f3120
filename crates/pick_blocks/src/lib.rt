// What a piece adds to a pick, by its state.
#![tactic(auto)]

mod adding;
mod standing;

pub use adding::add_blocks;
