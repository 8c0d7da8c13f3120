// The public mark of a block that is asked for. It requires nothing: it is refused as the table says, with every buffer as it was, or does
// what the definition's step does.
#![tactic(auto, using(picker_calls::proofs::PublicLaws::public_calls))]

mod requests;

pub use requests::mark_as_downloading;
