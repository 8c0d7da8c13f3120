// The test of the list in a picker's lent buffers, where head and pieces have passed theirs and the ranks are filled in.
#![tactic(auto)]

mod list;

pub use list::list_ok;
