// The blocks of partials in the lent buffers, read and stored by place, in the terms of the picker that the buffers mean, and a block by
// value: its peer beside one that a call names.
// A block is named by the place of its record and its number in the piece. The records stand in a buffer of their own: contracts speak for
// every content of it. A state above 3 is required away and has-peer is only stored as 0 or 1, so that the memory test passes again.
#![tactic(auto)]

mod blocks;
mod info;
mod peers;

pub use blocks::{fresh_block, get_block, put_block};
pub use info::BlockInfo;
pub use peers::{release, same_peer};
