// One pick: forced or not, the numbers that it starts with, the phases (`pick_phases`), and what they came to as one answer.
#![tactic(auto)]

mod pieces;

pub use pieces::{Picked, pick_pieces};
