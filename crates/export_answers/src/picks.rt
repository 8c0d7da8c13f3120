// What a pick answers.
ghost use Rattle.std.specs.Prelude.{◌≡◌};
ghost use Rattle.export_answers.specs.Picks.{of_pick};

use crate::refusals::{number, place};
use pick_pieces::Picked;
use types::Refusal;

// Where the output ends now, the flags, the draws used, and the seven counters.
#[repr(C)]
#[derive(Drop)]
pub struct PickAnswered {
    pub refusal: u32,
    pub flags: u32,
    pub place: usize,
    pub end: usize,
    pub draws: usize,
    pub partial_loops: u64,
    pub suggest_loops: u64,
    pub reverse_rare_loops: u64,
    pub rare_loops: u64,
    pub rand_start_loops: u64,
    pub rand_loops: u64,
    pub busy_loops: u64,
}

pub fn of_pick(o: Result<Picked, Refusal>) -> PickAnswered
    ensures { result ≡ of_pick o }
{
    match o {
        Err(why) => PickAnswered {
            refusal: number(why),
            flags: 0,
            place: place(why),
            end: 0,
            draws: 0,
            partial_loops: 0,
            suggest_loops: 0,
            reverse_rare_loops: 0,
            rare_loops: 0,
            rand_start_loops: 0,
            rand_loops: 0,
            busy_loops: 0,
        },
        Ok(p) => PickAnswered {
            refusal: 0,
            flags: p.flags,
            place: 0,
            end: p.end,
            draws: p.used,
            partial_loops: p.partial_loops,
            suggest_loops: p.suggest_loops,
            reverse_rare_loops: p.reverse_rare_loops,
            rare_loops: p.rare_loops,
            rand_start_loops: p.rand_start_loops,
            rand_loops: p.rand_loops,
            busy_loops: p.busy_loops,
        },
    }
}
