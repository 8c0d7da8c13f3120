// Every public call of the piece picker, with what it takes and answers, under one name. No call requires anything.

// A picker made, its image taken and read, and what both need.
#![tactic(auto)]

pub use picker_images::{image_needed, memory_needed, new, read_image, take_image};

// The changes.
pub use picker_blocks::{BlockPeer, BlockRequest};
pub use picker_calls::Outcome;
pub use picker_changes::{dec_refcount, inc_refcount};
pub use picker_flags::{PiecePriority, lock_piece, piece_passed, set_piece_priority};
pub use picker_giving::{abort_download, mark_as_canceled};
pub use picker_marks::{mark_as_finished, mark_as_writing};
pub use picker_requests::mark_as_downloading;
pub use picker_seeds::{dec_refcount_all, inc_refcount_all};

// The pick.
pub use pick_judge::PickInput;
pub use picker_pick::pick_pieces;

// The questions.
pub use picker_block_questions::{
    block_num_peers, block_peer, block_state, get_downloader, is_downloaded, is_finished_block,
    is_requested, num_peers_block,
};
pub use picker_lists::{
    blocks_for_piece, get_availability_vec, get_download_queue, get_downloaders, piece_priorities,
};
pub use picker_partial_questions::{
    hashing, have_piece, is_hashing, is_piece_finished, locked, passed_hash_check, piece_info,
};
pub use picker_piece_questions::{
    blocks_in_piece, download_state, get_availability, is_downloading, is_piece_flushed,
    pad_bytes_in_piece, payload_blocks_in_piece, peer_count, piece_priority, piece_size,
    piece_stats,
};
pub use picker_questions::{
    block_size, blocks_per_piece, cursor, dirty, distributed_copies, full_piece_size,
    get_download_queue_size, list_place, num_pieces, num_seeds, partial_at, recent_extent,
    reverse_cursor, total_size,
};
pub use picker_totals::{
    all_pieces, get_download_queue_sizes, have, have_want, is_finished, is_seeding, num_filtered,
    num_have, num_have_filtered, num_pad_bytes, num_want_left, want,
};

// What the questions and the pick answer.
pub use ask_block::PeerOf;
pub use ask_columns::DistributedCopies;
pub use ask_partial::PieceInfo;
pub use ask_piece::PieceStats;
pub use ask_places::Placed;
pub use ask_progress::QueueSizes;
pub use ask_totals::PieceCount;
pub use pick_pieces::Picked;

// Numbers, refusals and records.
pub use memory_records::DownloadingPiece;
pub use types::{DownloadPriority, PickerOptions, PieceBlock, PieceIndex, Refusal};
