// A block whose piece has a partial on disk, and the flush that it can cause. A step of a change: the whole mark finds the partial and its
// numbers, or opens one.
#![tactic(auto)]

mod finishes;

pub use finishes::finish_block;
