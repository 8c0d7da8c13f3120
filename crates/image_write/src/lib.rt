// The image of a picker that stands in the buffers: its length, and its bytes in a lent buffer. The rows are its live records.
// The length is told first, so that a buffer that is too short is refused with nothing written.
#![tactic(auto)]

mod lengths;
mod whole;

pub use lengths::image_length;
pub use whole::{take_image, write_image};
