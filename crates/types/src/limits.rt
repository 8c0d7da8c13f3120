// The limits of document 01 and the constants of the Rust. That they are the definition's is proved in `geometry` and `list_rank`.

pub const MAX_PIECES: u64 = 4096;

// The bytes of a piece.
pub const MAX_PIECE_SIZE: u64 = 4194304;

// The peers of a piece with the seeds, and the peers of a block.
pub const MAX_PEERS: u64 = 1000;

pub const MAX_PARTIALS: u64 = 512;

// The recent extents.
pub const MAX_EXTENTS: u64 = 5;

// The bytes of a whole block.
pub const BLOCK_SIZE: u64 = 16384;

// The blocks of an extent.
pub const MAX_PIECE_AFFINITY_EXTENT: u64 = 256;

pub const PRIORITY_LEVELS: u64 = 8;

pub const PRIO_FACTOR: u64 = 3;

// The rank of a piece with MAX_PEERS peers and the lowest priority but 0, in a reverse queue.
pub const MAX_RANK: usize = 21021;
