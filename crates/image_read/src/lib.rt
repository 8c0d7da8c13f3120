// Any bytes read into lent buffers: all of them are judged before anything is written, and a refusal leaves every buffer as it was.
#![tactic(auto)]

mod lengths;
mod whole;

pub use whole::read_image;
