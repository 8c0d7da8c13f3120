// Seeds counted in and out, and one that turns out to lack a piece: the changes of availability that concern all pieces.
#![tactic(auto)]

mod lowering;
mod raising;
mod seeds;

pub use lowering::lower_all;
pub use raising::raise_all;
pub use seeds::{break_one_seed, dec_refcount_all, inc_refcount_all};
