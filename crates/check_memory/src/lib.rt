// The test behind refusals 2 and 3: whether the lent buffers are long enough and hold a well-formed picker. It asks nothing of them.
#![tactic(auto)]

mod lengths;
mod memory;
mod rows;

pub use memory::check_memory;
