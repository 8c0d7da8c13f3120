// The words of the head stored, in the terms of memory_fields: a setter says what becomes of the picker.
// What the memory test would refuse is never stored: a flag is only stored as 0 or 1.
#![tactic(auto)]

mod extents;
mod head;

pub use extents::{push_recent_extent, remove_recent_extent};
pub use head::{mark_dirty, set_cursor, set_reverse_cursor, set_seeds};
