// What a mark answers.

// Whether the block was marked, and the number of the next draw.
#[derive(Drop)]
pub struct Marked {
    pub answer: bool,
    pub used: usize,
}
