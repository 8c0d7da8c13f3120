// The bytes of an image in a lent buffer: numbers put and read, the high byte first, and the table of body lengths.
#![tactic(auto)]

mod lengths;
mod numbers;
mod reading;

pub use lengths::body_length;
pub use numbers::{put1, put2, put4, put8};
pub use reading::{read1, read2, read4, read8};
