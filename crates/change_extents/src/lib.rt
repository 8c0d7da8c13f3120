// The recent extents: a piece that is opened under extent affinity has its extent recorded, where that is worth it.
#![tactic(auto)]

mod extents;
mod neighbours;

pub use extents::{is_recent, record_downloading_piece};
pub use neighbours::worth_recording;
