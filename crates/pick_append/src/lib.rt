// Blocks set aside appended to the output, and places gathered in a local row.
#![tactic(auto)]

mod aside;
mod rows;

pub use aside::append_blocks;
pub use rows::push;
