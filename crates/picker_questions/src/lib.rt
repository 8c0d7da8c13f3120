// The public questions of the picker that its head and its columns answer, and of what stands at a place. None requires anything: each is
// refused as the table says, or answers what the definition replies.
// Written by tools/publics.py, and not by hand.
#![tactic(auto, using(picker_answers::proofs::AdmittedLaws::public_questions), unfolding(model::specs::Calls::question_refusal))]

mod copies;
mod head;
mod places;

pub use copies::distributed_copies;
pub use head::{
    block_size, blocks_per_piece, cursor, dirty, full_piece_size, get_download_queue_size,
    num_pieces, num_seeds, reverse_cursor, total_size,
};
pub use places::{list_place, partial_at, recent_extent};
