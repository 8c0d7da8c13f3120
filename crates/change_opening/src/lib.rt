// An Open piece becomes a partial, and its first block is marked. The records are seen as rows and never written: a function answers the
// record that the public call puts in, and contracts speak of the picker with the records as they will be.
// These are steps of a change: they rely on a picker on its way through one, without a partial of the piece and with room for it.
#![tactic(auto)]

mod extents;
mod marks;
mod openings;

pub use marks::mark_opening;
pub use openings::open_piece;
