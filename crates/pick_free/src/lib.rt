// Which pieces a pick may take, and the span of pieces around one that holds the run. All of it is told by the cells, beside any words and
// records.
#![tactic(auto)]

mod pieces;
mod spans;

pub use pieces::{can_pick, has_bit, is_piece_free};
pub use spans::{Span, expand_piece, saturating_sub};
