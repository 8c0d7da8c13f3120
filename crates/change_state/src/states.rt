// The state that a partial's blocks give its piece.
ghost use Rattle.std.specs.Prelude.{◌≡◌, ◌+◌, eqb};
ghost use Rattle.model.specs.Lists.{bit};
ghost use Rattle.model.specs.change.Partials.{in_direction};
ghost use Rattle.change_state.specs.Numbers.{state_by};

use types::DownloadQueue;

// What `update_piece_state` looks at: how many blocks a partial has, how many of them are at work and how many only requested, and
// whether it is being hashed.
#[derive(Clone, Copy)]
pub struct Tally {
    pub blocks: u16,
    pub busy: u16,
    pub requested: u16,
    pub hashing: bool,
}

// A queue in the direction that the piece has now.
fn in_direction(current: DownloadQueue, q: DownloadQueue) -> DownloadQueue
    ensures { result ≡ in_direction current q }
{
    if current.is_reverse() {
        return q.make_reverse();
    }
    q
}

// No block is at work, and nothing is being hashed.
fn is_idle(busy: u16, hashing: bool) -> bool
    ensures { result ≡ eqb (busy + bit hashing) 0 }
{
    (busy == 0) & !hashing
}

// The state that these blocks and this priority give; Open where the piece is left as it is.
pub fn new_state(t: Tally, priority: u16, current: DownloadQueue) -> DownloadQueue
    ensures { result ≡ state_by t priority current }
{
    if priority == 0 {
        return DownloadQueue::ZeroPrio;
    }
    if is_idle(t.busy, t.hashing) {
        return DownloadQueue::Open;
    }
    if t.busy < t.blocks {
        return in_direction(current, DownloadQueue::Downloading);
    }
    if 0 < t.requested {
        return in_direction(current, DownloadQueue::Full);
    }
    DownloadQueue::Finished
}
