// Partials locked and passed in lent memory. A change answers the one edit of the records that goes with it: with that edit made, the
// picker is the definition's.
#![tactic(auto)]

mod flags;

pub use flags::{lock_piece, piece_passed};
