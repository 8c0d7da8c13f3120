// What a whole mark answers.
use memory_records::Edit;

// Whether the block was marked, the one edit of the records, and the number of draws used.
#[derive(Drop)]
pub struct Marking {
    pub answer: bool,
    pub edit: Edit,
    pub used: usize,
}
