// Answers for C: structs of numbers, and each public answer as one of them.
#![tactic(auto)]

mod answered;
mod changes;
mod picks;
mod records;
mod refusals;
mod replies;

pub use answered::Answered;
pub use changes::{Changed, of_outcome};
pub use picks::{PickAnswered, of_pick};
pub use records::{
    Copied, Counted, Info, Sized, Stats, of_copies, of_count, of_info, of_sizes, of_stats,
};
pub use replies::{
    of_block_number, of_flag, of_image, of_list, of_making, of_number, of_partial_flag, of_peer,
    of_place,
};
