// The test of a picker's memory: the live records, their places and their states. Their blocks are tested by check_blocks.
#![tactic(auto)]

mod partials;
mod places;
mod states;

pub use partials::partials_ok;
pub use places::places_ok;
pub use states::state_ok;
