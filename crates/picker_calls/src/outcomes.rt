// What the public changes answer.
use memory_records::Edit;

// Done, or answered true or false, with the draws used.
#[derive(Drop)]
pub enum Outcome {
    Done(usize),
    Said(bool, usize),
}

// What the core of a change that is done answers: the call's answer, how many records are live, and what becomes of them.
#[derive(Drop)]
pub struct CallStep {
    pub out: Outcome,
    pub count: usize,
    pub edit: Edit,
}
