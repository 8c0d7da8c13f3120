// The totals of the picker: pieces that pass a test, and their pad bytes, counted in one pass over the pieces. Pieces that passed while
// they are still partials are marked from the rows before it, so that no piece is looked up.
#![tactic(auto)]

mod count;
mod marks;
mod totals;

pub use count::{Kinds, PieceCount, counted};
pub use totals::{
    all_pieces, have, have_want, num_filtered, num_have, num_have_filtered, num_pad_bytes, want,
};
