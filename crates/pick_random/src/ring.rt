// The random walk: from a drawn piece round the torrent, until no block is wanted or the walk is over.
ghost use Rattle.std.specs.Prelude.{◌≡◌, ◌+◌, ◌≤◌, ◌<◌};
ghost use Rattle.model.specs.Lists.{nth};
ghost use Rattle.model.specs.pick.Pick.{ring, pick_random};
ghost use Rattle.memory_rows.specs.Lookup.{picker_in};
ghost use Rattle.pick_state.specs.Requests.{request_of};
ghost use Rattle.pick_state.specs.Room.{Underway};
ghost use Rattle.pick_free.specs.Picking.{Picks};
ghost use Rattle.pick_visits.specs.Steps.{Stepped, Risen};
ghost use Rattle.pick_random.specs.Rings.{begun, drawn, walk_done, RingCounted};

use list_draws::draw;
use memory_layout::Shape;
use pick_lap::lap_step;
use pick_state::{PickNumbers, PickRequest};
use pick_walk::{RandomWalk, Trace};

// Where the walk begins: nothing was done yet.
fn begun(t: PickNumbers, start: usize) -> RandomWalk
    ensures { result ≡ begun start t }
{
    let seen = Trace {
        taken: t.end,
        aside: t.aside,
        ignored: 0,
    };
    RandomWalk {
        work: t,
        place: start,
        back: false,
        seen: seen,
        over: false,
        marks: 0,
    }
}

// It is over, or no block is wanted.
fn walk_over(x: RandomWalk) -> bool
    ensures { result ≡ walk_done x }
{
    let work = x.work;
    x.over | (work.left == 0)
}

// The whole walk from piece `start`.
fn ring(
    words: &[u64],
    cells: &[u16],
    rows: &[u32],
    live: usize,
    s: Shape,
    q: PickRequest,
    bytes: &[u8],
    out: &mut [u64],
    aside: &mut [u64],
    ignored: &mut [bool],
    loops: &mut [u64],
    t: PickNumbers,
    start: usize,
) -> PickNumbers
    requires picks { Picks s live rows.now words.now cells.now q }
    requires underway { Underway (picker_in live rows.now words.now cells.now) t out.old aside.old ignored.old loops.old }
    requires le_left { (1 ≤ t.left) × (start < s.pieces) × (nth 0 loops.old 4 ≤ 4294967296) × (nth 0 loops.old 5 ≤ 4294967296) }
    ensures stepped { Stepped (ring (request_of q bytes.now) start)
        (picker_in live rows.now words.now cells.now) t result
        out.old aside.old ignored.old loops.old
        out.new aside.new ignored.new loops.new }
    ensures ring_counted { RingCounted loops.old loops.new }
{
    let mut x = begun(t, start);
    // No `for`: how many turns the walk takes follows from what the turns do.
    while !walk_over(x) {
        x = lap_step(
            words, cells, rows, live, s, q, bytes, out, aside, ignored, loops, x, start,
        );
    }
    x.work
}

// One draw more.
fn drawn(t: PickNumbers) -> PickNumbers
    requires { t.used < 4294967296 }
    ensures { result ≡ drawn t }
{
    PickNumbers {
        used: t.used + 1,
        ..t
    }
}

// The walk from a drawn piece.
pub fn pick_random(
    words: &[u64],
    cells: &[u16],
    rows: &[u32],
    live: usize,
    s: Shape,
    q: PickRequest,
    bytes: &[u8],
    draws: &[u32],
    out: &mut [u64],
    aside: &mut [u64],
    ignored: &mut [bool],
    loops: &mut [u64],
    t: PickNumbers,
) -> PickNumbers
    requires picks { Picks s live rows.now words.now cells.now q }
    requires underway { Underway (picker_in live rows.now words.now cells.now) t out.old aside.old ignored.old loops.old }
    requires le_left { (1 ≤ t.left) × (t.used < 4294967296) × (nth 0 loops.old 4 ≤ 4294967296) × (nth 0 loops.old 5 ≤ 4294967296) }
    ensures stepped { Stepped (pick_random draws.now (request_of q bytes.now))
        (picker_in live rows.now words.now cells.now) t result
        out.old aside.old ignored.old loops.old
        out.new aside.new ignored.new loops.new }
    ensures risen { (Risen 137573171200 loops.old loops.new) × (result.used ≡ t.used + 1) }
{
    let start = draw(draws, t.used, s.pieces - 1);
    ring(
        words,
        cells,
        rows,
        live,
        s,
        q,
        bytes,
        out,
        aside,
        ignored,
        loops,
        drawn(t),
        start,
    )
}
