// The public changes of one piece's peers. None requires anything: each is refused as the table says, with every buffer as it was, or does
// what the definition's step does.
#![tactic(auto, using(picker_calls::proofs::PublicLaws::public_calls))]

mod counts;

pub use counts::{dec_refcount, inc_refcount};
