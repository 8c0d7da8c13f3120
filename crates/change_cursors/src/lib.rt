// The cursors: how far pieces at both ends are flushed or filtered, and what becomes of the cursors where a piece turns so.
// A move goes over the pieces once at most.
#![tactic(auto)]

mod cursors;
mod scans;

pub use cursors::{advance_cursors, cursors_on_filter, empty_range};
pub use scans::{cursor_from, flushed_or_filtered, reverse_from};
