// The questions of the picker for callers in C and Rust. Only for comparison and timing: a caller has to meet what is required. The
// geometry comes in numbers; rows and counts are as the memory test leaves them.
#![tactic(auto)]

mod columns;
mod copies;
mod head;
mod progress;
mod queue;
mod totals;
