// The first block of a piece just opened, marked. A step of a change: it relies on the piece's partial, with its record put in.
#![tactic(auto)]

mod marks;

pub use marks::{Marked, mark_first};
