// The free blocks of a partial used: set aside where the run does not fit and another peer is at work, else taken.
ghost use Rattle.std.specs.Prelude.{◌≡◌, cond, ◌≤◌, ◌<◌, length};
ghost use Rattle.model.specs.pick.Blocks.{contiguous_is_zero, use_free};
ghost use Rattle.pick_state.specs.PickStates.{contiguous_of};
ghost use Rattle.pick_requested.specs.Requested.{found_is};
ghost use Rattle.pick_partial.specs.Free.{PlainStates, partial_by};
ghost use Rattle.pick_partial.specs.Adding.{HasRoom, BlocksDid};

use crate::free::{set_aside, take_free};
use pick_requested::RequestedFrom;
use pick_state::{PickNumbers, contiguous_above, contiguous_is_zero};

// The first block to use: without a run the first of the piece.
fn first_used(h: RequestedFrom, t: PickNumbers) -> usize
    ensures { result ≡ cond (contiguous_is_zero (contiguous_of t)) 0 h.first }
{
    if contiguous_is_zero(t) {
        return 0;
    }
    h.first
}

// The run stays what it was: blocks are taken on a copy of it.
pub fn use_free(
    states: &[u16],
    i: usize,
    h: RequestedFrom,
    out: &mut [u64],
    aside: &mut [u64],
    t: PickNumbers,
) -> PickNumbers
    requires plain_states { (PlainStates states.now) × (i < 4096) × (h.first < length states.now) × (length states.now ≤ 256) × (h.longest ≤ 256) }
    requires has_room { HasRoom t out.old aside.old }
    ensures { BlocksDid (use_free (partial_by i states.now) (found_is h)) t result out.old aside.old
        out.new aside.new }
{
    let first = first_used(h, t);
    let above = contiguous_above(t, h.longest);
    if above & h.active {
        return set_aside(states, i, first, aside, t);
    }
    let r = take_free(states, i, first, out, t);
    PickNumbers {
        asked: t.asked,
        given: t.given,
        ..r
    }
}
