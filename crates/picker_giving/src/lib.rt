// The public calls that give a block back. Neither requires anything: each is refused as the table says, with every buffer as it was, or
// does what the definition's step does.
#![tactic(auto, using(picker_calls::proofs::PublicLaws::public_calls))]

mod returns;

pub use returns::{abort_download, mark_as_canceled};
