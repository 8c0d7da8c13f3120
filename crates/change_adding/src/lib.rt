// A partial added for a piece. The records are seen as rows and never written: the function answers the record that the public call
// puts in, and its contract speaks of the picker with the records as they will be. A step of a change: it relies on a picker on its way
// through one, without a partial of the piece and with room for it.
#![tactic(auto)]

mod adding;

pub use adding::{Opening, add_download_piece};
