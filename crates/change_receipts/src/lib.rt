// What a mark of a block whose piece has a partial answers, and the mark of one that a peer brought. A step of a change: the whole mark
// finds the partial and its numbers, or opens one.
#![tactic(auto)]

mod answers;
mod receipts;

pub use answers::Marked;
pub use receipts::write_block;
