// What every public question is made of: its memory and its arguments admitted or refused, and what it answers.
#![tactic(auto)]

mod admitted;

pub use admitted::{Admitted, admit_block, admit_picker, admit_piece, admit_place};
