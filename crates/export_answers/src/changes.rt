// What a change answers.
ghost use Rattle.std.specs.Prelude.{◌≡◌};
ghost use Rattle.export_answers.specs.Changes.{truth_value, of_outcome};

use crate::refusals::{number, place};
use picker_calls::Outcome;
use types::Refusal;

// `kind` is 0 for a change that answers nothing, 1 where `value` is 1 for true or 0 for false; `draws` are the draws used.
#[repr(C)]
#[derive(Drop)]
pub struct Changed {
    pub refusal: u32,
    pub kind: u32,
    pub place: usize,
    pub value: u64,
    pub draws: usize,
}

fn truth_value(truth: bool) -> u64
    ensures { result ≡ truth_value truth }
{
    if truth { 1 } else { 0 }
}

pub fn of_outcome(o: Result<Outcome, Refusal>) -> Changed
    ensures { result ≡ of_outcome o }
{
    match o {
        Err(why) => Changed {
            refusal: number(why),
            kind: 0,
            place: place(why),
            value: 0,
            draws: 0,
        },
        Ok(Outcome::Done(used)) => Changed {
            refusal: 0,
            kind: 0,
            place: 0,
            value: 0,
            draws: used,
        },
        Ok(Outcome::Said(truth, used)) => Changed {
            refusal: 0,
            kind: 1,
            place: 0,
            value: truth_value(truth),
            draws: used,
        },
    }
}
