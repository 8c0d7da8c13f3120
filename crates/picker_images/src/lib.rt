// The public calls that make a picker, the one that takes its image, and the needs. None requires anything: each is refused as the table
// says, with every buffer as it was, or does what the definition does.
#![tactic(auto, using(picker_calls::proofs::PublicLaws::public_calls))]

mod making;
mod needs;
mod reading;
mod taking;

pub use making::new;
pub use needs::{image_needed, memory_needed};
pub use reading::read_image;
pub use taking::take_image;
