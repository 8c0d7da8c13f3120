// A mark of a block whose piece has no partial: the lookup that tells so, and the piece opened.
#![tactic(auto)]

mod answers;
mod lookup;
mod openings;

pub use answers::Marking;
pub use lookup::partial_of;
pub use openings::{first_state, open_arrived, open_mark};
