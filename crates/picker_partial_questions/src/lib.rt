// The public questions of a piece that its partial answers. None requires anything: each is refused as the table says, or answers what the
// definition replies.
// Written by tools/publics.py, and not by hand.
#![tactic(auto, using(picker_answers::proofs::AdmittedLaws::public_questions), unfolding(model::specs::Calls::question_refusal))]

mod flags;
mod info;

pub use flags::{hashing, have_piece, is_hashing, locked, passed_hash_check};
pub use info::{is_piece_finished, piece_info};
