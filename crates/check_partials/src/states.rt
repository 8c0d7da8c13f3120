// The state of a piece, by its priority and the numbers of its partial's blocks: requested, not free, all.
ghost use Rattle.std.specs.Prelude.{◌≡◌, ◌≤◌};
ghost use Rattle.types.specs.Queue.{queue_number, unreverse};
ghost use Rattle.memory_layout.specs.Decode.{queue_from};
ghost use Rattle.check_partials.specs.States.{due_by, state_by};

// The number of a state without its direction.
fn plain_state(state: u16) -> u16
    requires { state ≤ 6 }
    ensures { result ≡ queue_number (unreverse (queue_from state)) }
{
    if state < 5 {
        return state;
    }
    state - 5
}

// The number of the plain state that is due; that of Open where the piece is left as it is.
fn state_due(priority: u16, requested: u16, busy: u16, blocks: u16, hashing: bool) -> u16
    ensures { result ≡ queue_number (due_by priority requested busy blocks hashing) }
{
    if priority == 0 {
        return 3;
    }
    if busy == 0 {
        if !hashing {
            return 4;
        }
    }
    if busy < blocks {
        return 0;
    }
    if 0 < requested {
        return 1;
    }
    2
}

// The state is the one that is due, or no block of a piece above priority 0 is at work.
pub fn state_ok(
    state: u16,
    priority: u16,
    requested: u16,
    busy: u16,
    blocks: u16,
    hashing: bool,
) -> bool
    requires { state ≤ 6 }
    ensures { result ≡ state_by state priority requested busy blocks hashing }
{
    if 0 < priority {
        if busy == 0 {
            return true;
        }
    }
    plain_state(state) == state_due(priority, requested, busy, blocks, hashing)
}
