// The public questions of a block. None requires anything: each is refused as the table says, or answers what the definition replies.
// Written by tools/publics.py, and not by hand.
#![tactic(auto, using(picker_answers::proofs::AdmittedLaws::public_questions), unfolding(model::specs::Calls::question_refusal))]

mod peers;
mod states;

pub use peers::{block_peer, get_downloader};
pub use states::{
    block_num_peers, block_state, is_downloaded, is_finished_block, is_requested, num_peers_block,
};
