// Whole marks of a block, on the partial that the rows name or on one that is opened for the piece.
#![tactic(auto)]

mod downloads;
mod finishes;
mod receipts;

pub use downloads::mark_as_downloading;
pub use finishes::mark_as_finished;
pub use receipts::mark_as_writing;
