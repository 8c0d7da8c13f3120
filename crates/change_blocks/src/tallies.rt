// The numbers of a partial's blocks after one of them went from a state to another.
ghost use Rattle.std.specs.Prelude.{◌≡◌, ◌≤◌, eqb, ltb};
ghost use Rattle.model.specs.Lists.{bit};
ghost use Rattle.change_blocks.specs.Replacing.{Retallied};

use change_state::Tally;
use types::BlockState;

// 1 for a block that is at work, and 0 for a free one.
fn one_busy(state: u16) -> u16
    ensures { result ≡ bit (ltb 0 state) }
{
    u16::from(state > BlockState::None as u16)
}

// 1 for a block that is requested.
fn one_requested(state: u16) -> u16
    ensures { result ≡ bit (eqb state 1) }
{
    u16::from(state == BlockState::Requested as u16)
}

// The numbers after one block went from the state with the number `old` to that with `new`.
pub fn retally(t: Tally, old: u16, new: u16) -> Tally
    requires bound { (bit (ltb 0 old) ≤ t.busy) × (t.busy ≤ 256) }
    requires bound_2 { (bit (eqb old 1) ≤ t.requested) × (t.requested ≤ 256) }
    ensures { Retallied t old new result }
{
    Tally {
        busy: t.busy - one_busy(old) + one_busy(new),
        requested: t.requested - one_requested(old) + one_requested(new),
        ..t
    }
}
