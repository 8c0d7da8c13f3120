// A piece's state and direction in lent memory, with the list mended after each: `update_piece_state` and what it is made of.
// These are steps of a change: they rely on a picker on its way through one, not on a well-formed one.
#![tactic(auto)]

mod moves;
mod queues;
mod states;

pub use moves::{set_state, update_piece_state};
pub use queues::{queue_at, queue_number};
pub use states::{Tally, new_state};
