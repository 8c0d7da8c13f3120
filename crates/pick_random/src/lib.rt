// The phase of a pick that goes round the torrent from a drawn piece.
#![tactic(auto)]

mod ring;

pub use ring::pick_random;
