// Whether a new priority turns a piece from or to 0, and the cursors where it does. First steps of a change: they rely on a picker that
// stands in the buffers.
#![tactic(auto)]

mod filters;

pub use filters::{filter_changes, turn_cursors};
