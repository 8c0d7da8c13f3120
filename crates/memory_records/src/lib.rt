// The lent slice of partial records: the record at a place, and the records as rows of numbers, which is how the functions below a public
// call see them; what searches and edits by piece come to (the code is `memory_search` and `memory_edits`). Every public call over words,
// cells and partials stands on it.
#![tactic(auto)]

mod edits;
mod record;
mod rows;

pub use edits::Edit;
pub use record::{DownloadingPiece, get, put};
pub use rows::{live_records, pack, row, set_row, unpack};
