// The value types of the piece picker: piece and block numbers, priorities, queues, block states, option and flag bits, refusals; limits; and numbers in another width.
#![tactic(auto)]

mod block;
mod convert;
mod flags;
mod limits;
mod options;
mod piece;
mod priority;
mod queue;
mod refusal;
mod unknown;

pub use block::BlockState;
pub use convert::{
    i32_to_usize, i64_to_u64, u16_to_u64, u16_to_usize, u32_to_usize, u64_to_u16, u64_to_usize,
    usize_to_u32, usize_to_u64,
};
pub use flags::PickerFlags;
pub use limits::{
    BLOCK_SIZE, MAX_EXTENTS, MAX_PARTIALS, MAX_PEERS, MAX_PIECE_AFFINITY_EXTENT, MAX_PIECE_SIZE,
    MAX_PIECES, MAX_RANK, PRIO_FACTOR, PRIORITY_LEVELS,
};
pub use options::PickerOptions;
pub use piece::{PieceBlock, PieceIndex};
pub use priority::DownloadPriority;
pub use queue::DownloadQueue;
pub use refusal::Refusal;
pub use unknown::UnknownNumber;
