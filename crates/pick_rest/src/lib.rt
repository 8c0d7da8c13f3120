// What a pick does where blocks are still wanted at its end: the blocks set aside, and then the end game, one block more of a Full piece that
// another peer was asked for.
#![tactic(auto)]

mod game;
mod rest;

pub use rest::pick_rest;
