// The public questions that fill a lent list. None requires anything: each is refused as the table says, 2 of the list's places among them,
// or writes the records that the definition replies. What lies behind them is untouched, and all of it where the call is refused.
#![tactic(auto, using(crate::proofs::ListLaws::public_lists), unfolding(model::specs::Calls::question_refusal, model::specs::Calls::records_needed, crate::specs::Rooms::room_rule))]

mod admitted;
mod blocks;
mod columns;
mod queue;
mod rooms;

pub use blocks::{blocks_for_piece, get_downloaders};
pub use columns::{get_availability_vec, piece_priorities};
pub use queue::get_download_queue;
