// How a pick begins: the forcing rule, what is asked after it, and the numbers that the pick starts from.
#![tactic(auto)]

mod forced;
mod start;

pub use forced::is_forced;
pub use start::{effective_request, start_pick};
