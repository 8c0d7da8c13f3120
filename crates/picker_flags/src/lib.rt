// The public changes of a piece's priority and of its partial's flags. None requires anything: each is refused as the table says, with
// every buffer as it was, or does what the definition's step does.
#![tactic(auto, using(picker_calls::proofs::PublicLaws::public_calls))]

mod flags;
mod priorities;

pub use flags::{lock_piece, piece_passed};
pub use priorities::{PiecePriority, set_piece_priority};
