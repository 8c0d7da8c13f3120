// A turn of the random walk: on to the next piece that may be visited, and a visit, or the end.
#![tactic(auto)]

mod laps;
mod visits;

pub use laps::lap_step;
