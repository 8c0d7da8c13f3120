// How many of a partial's blocks are free, and how many are requested.

#[derive(Drop)]
pub struct Tally {
    pub free: u64,
    pub requested: u64,
}
