// An accepted image stored into lent words, cells and rows: one pass over its bytes, and nothing is judged again.
#![tactic(auto)]

mod list;
mod partials;
mod ranks;
mod tail;
mod whole;

pub use whole::store_image;
