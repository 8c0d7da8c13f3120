// The random walk round the torrent: where it stands, on to the next piece that may be visited, and whether a lap ends there.
#![tactic(auto)]

mod skipping;
mod tests;
mod walk;

pub use skipping::{onward, skip};
pub use tests::{lap_ends, stands_open};
pub use walk::{RandomWalk, Trace, ended, marked};
