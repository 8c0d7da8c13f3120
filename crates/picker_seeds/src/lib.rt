// The public changes of the seeds. None requires anything: each is refused as the table says, with every buffer as it was, or does what the
// definition's step does.
#![tactic(auto, using(picker_calls::proofs::PublicLaws::public_calls))]

mod seeds;

pub use seeds::{dec_refcount_all, inc_refcount_all};
