// Edits of the lent partial records by piece: one put in, taken out or replaced, where a search (`memory_search`) says. A public change
// ends with one edit.
#![tactic(auto)]

mod edits;

pub use edits::{apply, insert, remove, replace};
