// The questions of a piece, of a block and of a place for callers in C and Rust. Only for comparison and timing: a caller has to meet what
// is required. The geometry comes in numbers; rows and counts are as the memory test leaves them.
#![tactic(auto)]

mod answers;
mod downloaders;
mod fields;
mod flags;
mod info;
mod lengths;
mod peers;
mod places;
mod records;
mod states;
mod stats;
