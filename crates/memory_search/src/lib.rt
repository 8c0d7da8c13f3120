// Searches of the lent partial records by piece: the place of a piece's record, and the place where one belongs. Edits start there
// (`memory_edits`).
#![tactic(auto)]

mod search;

pub use search::{find, position, seek};
