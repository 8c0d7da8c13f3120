// What a change answers, in numbers, for a caller that is not Rattle.
#![tactic(auto)]

ghost use Rattle.link_outcomes.specs.Outcomes.{Tells};

use memory_records::Edit;

// The answer, the draws used, and the edit of the records: 0 none, 1 a record replaced, 2 one put in, 3 that of a piece taken out; then
// the record's numbers.
#[repr(C)]
#[derive(Drop)]
pub struct Outcome {
    pub answer: bool,
    pub used: usize,
    pub kind: u32,
    pub index: u32,
    pub info_idx: u32,
    pub flags: u32,
}

// The three together.
pub fn told(answer: bool, used: usize, edit: Edit) -> Outcome
    ensures { Tells answer used edit result }
{
    match edit {
        Edit::Keep => Outcome {
            answer,
            used,
            kind: 0,
            index: 0,
            info_idx: 0,
            flags: 0,
        },
        Edit::Replace(d) => Outcome {
            answer,
            used,
            kind: 1,
            index: d.index,
            info_idx: d.info_idx,
            flags: d.flags,
        },
        Edit::Insert(d) => Outcome {
            answer,
            used,
            kind: 2,
            index: d.index,
            info_idx: d.info_idx,
            flags: d.flags,
        },
        Edit::Remove(piece) => Outcome {
            answer,
            used,
            kind: 3,
            index: piece,
            info_idx: 0,
            flags: 0,
        },
    }
}
