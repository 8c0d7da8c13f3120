// The public questions of the picker that count its pieces and its partials. None requires anything: each is refused as the table says, or
// answers what the definition replies.
// Written by tools/publics.py, and not by hand.
#![tactic(auto, using(picker_answers::proofs::AdmittedLaws::public_questions), unfolding(model::specs::Calls::question_refusal))]

mod progress;
mod totals;

pub use progress::{get_download_queue_sizes, is_finished, is_seeding, num_want_left};
pub use totals::{
    all_pieces, have, have_want, num_filtered, num_have, num_have_filtered, num_pad_bytes, want,
};
