// The questions of a piece that its partial answers: its flags, and how many of its blocks are in each state.
#![tactic(auto)]

mod flags;
mod info;

pub use flags::{hashing, have_piece, is_hashing, locked, passed_hash_check};
pub use info::{PieceInfo, info_at, is_piece_finished, piece_info};
