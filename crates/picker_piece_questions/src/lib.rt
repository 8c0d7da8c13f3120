// The public questions of a piece that its own fields and the geometry answer. None requires anything: each is refused as the table says,
// or answers what the definition replies.
// Written by tools/publics.py, and not by hand.
#![tactic(auto, using(picker_answers::proofs::AdmittedLaws::public_questions), unfolding(model::specs::Calls::question_refusal))]

mod fields;
mod lengths;
mod stats;

pub use fields::{
    download_state, is_downloading, is_piece_flushed, pad_bytes_in_piece, peer_count,
    piece_priority,
};
pub use lengths::{blocks_in_piece, payload_blocks_in_piece, piece_size};
pub use stats::{get_availability, piece_stats};
