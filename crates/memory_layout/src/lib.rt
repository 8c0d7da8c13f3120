// A picker's three lent buffers: its shape, where each number stands, and a pair of accessors for each kind of column.
// `words` has the head, the pad bytes and the list of the pieces, and the peers of blocks; `cells` the small fields, a column each; the
// records of partials stand in a buffer of their own.
#![tactic(auto)]

mod cells;
mod columns;
mod offsets;
mod shape;
mod words;

pub use cells::{block_cell, piece_cell, set_block_cell, set_piece_cell};
pub use columns::{block_column, list_column, pad_column, piece_column};
pub use offsets::list_start;
pub use shape::{Shape, shape_of};
pub use words::{head_word, peer_word, piece_word, set_head_word, set_peer_word, set_piece_word};
