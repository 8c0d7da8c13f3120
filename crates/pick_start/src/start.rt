// What is asked after the forcing rule, and the numbers of a pick that has done nothing yet.
ghost use Rattle.std.specs.Prelude.{◌≡◌, cond};
ghost use Rattle.types.specs.Bits.{union};
ghost use Rattle.pick_state.specs.PickStates.{with_flags};
ghost use Rattle.pick_start.specs.Starting.{effective_numbers, start_numbers};

use pick_state::{PickNumbers, PickRequest, flagged};
use types::{PickerFlags, PickerOptions};

// PRIORITIZE_PARTIALS set, and no run, where the rule forces it.
pub fn effective_request(q: PickRequest, forced: bool) -> PickRequest
    ensures { result ≡ effective_numbers forced q }
{
    if forced {
        return PickRequest {
            options: q.options.with(PickerOptions::PRIORITIZE_PARTIALS),
            contiguous: 0,
            ..q
        };
    }
    q
}

// A flag set where a test holds.
fn flagged_where(t: PickNumbers, test: bool, flag: PickerFlags) -> PickNumbers
    ensures { result ≡ cond test (with_flags (union t.flags flag.0) t) t }
{
    if test {
        return flagged(t, flag);
    }
    t
}

// The output goes on at `end`; the flags tell of the rule and of a run.
pub fn start_pick(q: PickRequest, forced: bool, end: usize) -> PickNumbers
    ensures { result ≡ start_numbers q forced end }
{
    let t = PickNumbers {
        left: q.wanted,
        asked: q.contiguous,
        given: 0,
        used: 0,
        flags: 0,
        end: end,
        aside: 0,
    };
    let u = flagged_where(t, 0 < q.contiguous, PickerFlags::PREFER_CONTIGUOUS);
    flagged_where(u, forced, PickerFlags::PARTIAL_RATIO)
}
