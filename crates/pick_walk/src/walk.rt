// Where the walk stands.
ghost use Rattle.std.specs.Prelude.{◌≡◌};
ghost use Rattle.pick_walk.specs.Walks.{moved, ended, marked};

use pick_state::PickNumbers;

// What tells whether a lap did anything: where the output ended, blocks set aside, pieces ignored since the walk began.
#[derive(Clone, Copy)]
pub struct Trace {
    pub taken: usize,
    pub aside: usize,
    pub ignored: usize,
}

// The pick's numbers; the piece that the walk stands at; whether skipping brought it back to the start; what it had come to when it last
// stood there; whether it is over; how many pieces were ignored since it began.
#[derive(Clone, Copy)]
pub struct RandomWalk {
    pub work: PickNumbers,
    pub place: usize,
    pub back: bool,
    pub seen: Trace,
    pub over: bool,
    pub marks: usize,
}

// At another piece.
pub fn moved(x: RandomWalk, place: usize, back: bool) -> RandomWalk
    ensures { result ≡ moved place back x }
{
    RandomWalk {
        place: place,
        back: back,
        ..x
    }
}

// Over.
pub fn ended(x: RandomWalk) -> RandomWalk
    ensures { result ≡ ended x }
{
    RandomWalk { over: true, ..x }
}

// What the walk has come to where it came back to the start, else what was seen before.
fn seen_now(x: RandomWalk) -> Trace
    ensures { result ≡ (marked x).seen }
{
    let work = x.work;
    if x.back {
        return Trace {
            taken: work.end,
            aside: work.aside,
            ignored: x.marks,
        };
    }
    x.seen
}

// Back at the start a new lap begins: what the pick has come to is seen anew.
pub fn marked(x: RandomWalk) -> RandomWalk
    ensures { result ≡ marked x }
{
    let seen = seen_now(x);
    RandomWalk { seen: seen, ..x }
}
