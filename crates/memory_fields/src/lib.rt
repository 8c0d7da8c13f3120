// The fields of a picker in the lent buffers, read in the terms of the picker that the buffers mean: head, extents, pieces.
// A getter says what it reads for every content of the buffers that it does not read. What a store leaves is defined here too: the stores
// are in memory_head_stores and memory_piece_stores.
// A piece is named by its place among the pieces, a usize: a PieceIndex, which could be negative, is turned into one in the layer above.
#![tactic(auto)]

mod extents;
mod head;
mod pieces;

pub use extents::{num_recent_extents, recent_extent};
pub use head::{cursor, is_dirty, list_length, num_partials, reverse_cursor, seeds};
pub use pieces::{flushed, pad_bytes, peer_count, priority, state, state_number};
