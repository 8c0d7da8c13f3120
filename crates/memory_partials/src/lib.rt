// Partials closed and flagged in the lent buffers, and the laws of records edited that opening one shares.
// The live records are seen as rows of numbers and never written: a function answers the record that the public call takes out or
// replaces by its piece, and contracts speak of the picker with the records as they will be.
#![tactic(auto)]

mod closing;
mod flags;

pub use closing::drop_partial;
pub use flags::with_flags;
