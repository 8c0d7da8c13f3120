// The questions of a piece that its own fields and the geometry answer. Each answer is the definition's, whatever stands in the buffers
// that are not read.
#![tactic(auto)]

mod fields;
mod lengths;
mod stats;

pub use fields::{
    download_state, is_downloading, is_piece_flushed, pad_bytes_in_piece, peer_count,
    piece_priority,
};
pub use lengths::{blocks_in_piece, payload_blocks_in_piece, piece_size};
pub use stats::{PieceStats, get_availability, piece_stats};
