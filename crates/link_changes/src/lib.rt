// The changes of a picker in lent buffers, for callers in C and Rust. Only for comparison and timing: a caller has to meet what is
// required. The geometry comes in numbers; rows and counts are as the memory test leaves them, and the caller makes the edit that is
// answered.
#![tactic(auto)]

mod counts;
mod flags;
mod giving;
mod marks;
mod priority;

pub use counts::{ch_dec_refcount, ch_dec_refcount_all, ch_inc_refcount, ch_inc_refcount_all};
pub use flags::{ch_lock_piece, ch_piece_passed};
pub use giving::{ch_abort_download, ch_mark_as_canceled};
pub use marks::{ch_mark_as_downloading, ch_mark_as_finished, ch_mark_as_writing};
pub use priority::ch_set_piece_priority;
