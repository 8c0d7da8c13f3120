// The public marks of a block that came. None requires anything: each is refused as the table says, with every buffer as it was, or does
// what the definition's step does.
#![tactic(auto, using(picker_calls::proofs::PublicLaws::public_calls))]

mod finishes;
mod receipts;

pub use finishes::mark_as_finished;
pub use receipts::mark_as_writing;
