// The questions of a block, answered from the partial of its piece where one stands.
#![tactic(auto)]

mod find;
mod peers;
mod states;

pub use find::block_of;
pub use peers::{PeerOf, block_peer, get_downloader};
pub use states::{
    block_num_peers, block_state, is_downloaded, is_finished_block, is_requested, num_peers_block,
};
