// `set_piece_priority` on lent memory: cursors, the priority and its list, then the state of a partial. It leaves the records.
#![tactic(auto)]

mod changes;
mod steps;

pub use changes::{PrioritySet, set_piece_priority};
