// Who works on a partial, and its longest run of free blocks: one pass over its blocks.
ghost use Rattle.std.specs.Prelude.{◌≡◌, ◌+◌, ◌≤◌, ◌<◌};
ghost use Rattle.types.specs.Peer.{named_peer};
ghost use Rattle.memory_layout.specs.Bounds.{Spans};
ghost use Rattle.pick_requested.specs.Requested.{run_ended, Within, PassedOver, Requested};

use memory_blocks::{BlockInfo, get_block, same_peer};
use memory_layout::Shape;
use pick_state::PickRequest;

// No other peer's block; another peer has a request; the longest run of free blocks, and its first.
#[derive(Clone, Copy)]
pub struct RequestedFrom {
    pub exclusive: bool,
    pub active: bool,
    pub longest: usize,
    pub first: usize,
}

// The same of the blocks passed so far, but for a run of `now` free blocks right before the next one.
#[derive(Drop)]
struct Scan {
    exclusive: bool,
    active: bool,
    longest: usize,
    first: usize,
    now: usize,
}

// The run before block j is over. So the first of equally long ones stays.
fn run_ended(x: Scan, j: usize) -> Scan
    requires { x.now ≤ j }
    ensures { result ≡ run_ended j x }
{
    if x.longest < x.now {
        return Scan {
            longest: x.now,
            first: j - x.now,
            now: 0,
            ..x
        };
    }
    Scan { now: 0, ..x }
}

// Block j passed.
fn pass_block(x: Scan, j: usize, b: BlockInfo, q: PickRequest) -> Scan
    requires within { Within x j }
    requires j_bound { j < 256 }
    ensures passed_over { PassedOver (named_peer q.has_peer q.peer) j x b result }
    ensures within_2 { Within result (j + 1) }
{
    if b.state == 0 {
        return Scan {
            now: x.now + 1,
            ..x
        };
    }
    let y = run_ended(x, j);
    let same = same_peer(b, q.has_peer, q.peer);
    Scan {
        exclusive: y.exclusive & same,
        active: y.active | (!same & (b.state == 1) & b.has_peer),
        now: 0,
        ..y
    }
}

// Of the first blocks of a place.
pub fn requested_from(
    words: &[u64],
    cells: &[u16],
    s: Shape,
    place: usize,
    many: usize,
    q: PickRequest,
) -> RequestedFrom
    requires spans { Spans s words.now cells.now }
    requires place_lt_places { (place < s.places) × (many ≤ s.blocks) }
    ensures { Requested words.now cells.now s place many (named_peer q.has_peer q.peer) result }
{
    let mut x = Scan {
        exclusive: true,
        active: false,
        longest: 0,
        first: 0,
        now: 0,
    };
    for j in 0..many {
        let b = get_block(words, cells, s, place, j);
        x = pass_block(x, j, b, q);
    }
    let y = run_ended(x, many);
    RequestedFrom {
        exclusive: y.exclusive,
        active: y.active,
        longest: y.longest,
        first: y.first,
    }
}
