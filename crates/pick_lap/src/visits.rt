// A visit: the span around an Open piece where a run is wanted, else the piece.
ghost use Rattle.std.specs.Prelude.{◌≡◌, false, ◌+◌, ◌≤◌, ◌<◌};
ghost use Rattle.model.specs.Lists.{bit};
ghost use Rattle.model.specs.pick.Pick.{random_span, random_piece, random_visit};
ghost use Rattle.memory_rows.specs.Lookup.{picker_in};
ghost use Rattle.pick_state.specs.Requests.{request_of};
ghost use Rattle.pick_free.specs.Picking.{Picks, PicksCells};
ghost use Rattle.pick_blocks.specs.Blocks.{PieceRoom};
ghost use Rattle.pick_walk.specs.Walks.{WalkDid, Tells};
ghost use Rattle.pick_lap.specs.Visits.{arrived, whole_span, Lapping, Unmarked, SpanVisit, SpanWalked, PieceWalked};

use memory_fields::state;
use memory_layout::Shape;
use pick_blocks::add_blocks;
use pick_free::expand_piece;
use pick_runs::take_random_span;
use pick_state::{PickNumbers, PickRequest, contiguous_above, flagged};
use pick_walk::{RandomWalk, onward};
use types::PickerFlags;

// The walk goes on at a piece; onto the start ends it.
fn arrive(x: RandomWalk, work: PickNumbers, marks: usize, place: usize, start: usize) -> RandomWalk
    ensures { result ≡ arrived start place marks work x }
{
    RandomWalk {
        work: work,
        place: place,
        back: false,
        over: place == start,
        marks: marks,
        ..x
    }
}

// The whole span around the piece, and on behind it.
fn random_span(
    words: &[u64],
    cells: &[u16],
    s: Shape,
    q: PickRequest,
    bytes: &[u8],
    out: &mut [u64],
    ignored: &mut [bool],
    loops: &mut [u64],
    x: RandomWalk,
    start: usize,
) -> RandomWalk
    requires span_visit { SpanVisit s words.now cells.now q x out.old ignored.old loops.old }
    requires given_bound { x.work.given + 1 < x.work.asked }
    ensures { SpanWalked (random_span (request_of q bytes.now) start) s words.now cells.now x result
        out.old out.new ignored.old ignored.new loops.old loops.new }
{
    let work = x.work;
    let span = expand_piece(cells, s, q, bytes, work, x.place);
    let taken = take_random_span(words, s, out, ignored, loops, work, span.first, span.end);
    let after = taken.work;
    let place = onward(s.pieces, span.end - 1);
    arrive(x, after, x.marks + taken.marks, place, start)
}

// One more where a piece is marked now.
fn marked_now(marks: usize, ignored: bool) -> usize
    requires { marks ≤ 4096 }
    ensures { result ≡ marks + bit ignored }
{
    if ignored {
        return marks + 1;
    }
    marks
}

// What the piece adds, and on to the next. It was not ignored before, and no span is taken around it.
fn random_piece(
    words: &[u64],
    cells: &[u16],
    rows: &[u32],
    live: usize,
    s: Shape,
    q: PickRequest,
    bytes: &[u8],
    out: &mut [u64],
    aside: &mut [u64],
    ignored: &mut [bool],
    x: RandomWalk,
    start: usize,
) -> RandomWalk
    requires picks { Picks s live rows.now words.now cells.now q }
    requires piece_room { PieceRoom (picker_in live rows.now words.now cells.now) x.work out.old aside.old ignored.old }
    requires le_left { (1 ≤ x.work.left) × (x.place < s.pieces) × (x.marks ≤ 4096) }
    requires unmarked { (Unmarked x ignored.old) × (whole_span (picker_in live rows.now words.now cells.now) x ≡ false) }
    ensures { PieceWalked (random_piece (request_of q bytes.now) start) s
        (picker_in live rows.now words.now cells.now) x result
        out.old aside.old ignored.old out.new aside.new ignored.new }
{
    let i = x.place;
    let work = flagged(x.work, PickerFlags::RANDOM_PIECES);
    let after = add_blocks(
        words, cells, rows, live, s, q, bytes, out, aside, ignored, work, i,
    );
    let marks = marked_now(x.marks, ignored[i]);
    let place = onward(s.pieces, i);
    arrive(x, after, marks, place, start)
}

// The walk stands at an Open piece, and more than a block is left of the run.
fn whole_span(cells: &[u16], s: Shape, q: PickRequest, x: RandomWalk) -> bool
    requires { (PicksCells s cells.now q) × (x.place < s.pieces) × (x.work.given < 4294967296) }
    ensures { Tells s cells.now (λ d. whole_span d x) result }
{
    let above = contiguous_above(x.work, 1);
    let number = state(cells, s, x.place);
    above & (number == 4)
}

// The span around an Open piece where a run is wanted, else the piece.
pub fn random_visit(
    words: &[u64],
    cells: &[u16],
    rows: &[u32],
    live: usize,
    s: Shape,
    q: PickRequest,
    bytes: &[u8],
    out: &mut [u64],
    aside: &mut [u64],
    ignored: &mut [bool],
    loops: &mut [u64],
    x: RandomWalk,
    start: usize,
) -> RandomWalk
    requires picks { Picks s live rows.now words.now cells.now q }
    requires lapping { Lapping s (picker_in live rows.now words.now cells.now) x out.old aside.old ignored.old loops.old }
    requires unmarked { Unmarked x ignored.old }
    ensures { WalkDid 0 4096 (random_visit (request_of q bytes.now) start) s
        (picker_in live rows.now words.now cells.now) x result
        out.old aside.old ignored.old loops.old
        out.new aside.new ignored.new loops.new }
{
    if whole_span(cells, s, q, x) {
        return random_span(words, cells, s, q, bytes, out, ignored, loops, x, start);
    }
    random_piece(
        words, cells, rows, live, s, q, bytes, out, aside, ignored, x, start,
    )
}
