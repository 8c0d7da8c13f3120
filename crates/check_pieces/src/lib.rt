// The test of a picker's lent buffers: head, pieces and extents.
#![tactic(auto)]

mod extents;
mod head;
mod pads;
mod pieces;
mod rows;

pub use extents::extents_ok;
pub use head::head_ok;
pub use pieces::{pieces_ok, rows_pass};
pub use rows::rank_in;
