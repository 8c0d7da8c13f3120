// Partials closed in lent memory, their piece Open again or on disk. Steps of a change: each says what becomes of the picker with the
// piece's record taken out, and relies on a partial of the piece.
#![tactic(auto)]

mod closing;

pub use closing::{erase_and_update, erase_download_piece, piece_flushed};
