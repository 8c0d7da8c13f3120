// Whether a piece may be visited, and whether a lap ends there.
ghost use Rattle.std.specs.Prelude.{◌≡◌, false, not, ◌&&◌, ◌<◌, eqb, length};
ghost use Rattle.model.specs.Lists.{nth};
ghost use Rattle.model.specs.pick.Blocks.{is_piece_free};
ghost use Rattle.pick_state.specs.Requests.{request_of};
ghost use Rattle.pick_free.specs.Picking.{PicksCells};
ghost use Rattle.pick_walk.specs.Walks.{Tells, LapTold};

use crate::walk::RandomWalk;
use memory_layout::Shape;
use pick_free::is_piece_free;
use pick_state::PickRequest;

// Piece i may be visited: it is free, and not ignored.
pub fn stands_open(
    cells: &[u16],
    s: Shape,
    q: PickRequest,
    bytes: &[u8],
    ignored: &[bool],
    i: usize,
) -> bool
    requires { (PicksCells s cells.now q) × (i < length ignored.now) }
    ensures { Tells s cells.now
        (λ d. is_piece_free (request_of q bytes.now) d i && not (nth false ignored.now i)) result }
{
    let free = is_piece_free(cells, s, q, bytes, i);
    free & !ignored[i]
}

// Nothing was done since the walk last stood at the start.
fn same_trace(x: RandomWalk) -> bool
    ensures { result ≡ (eqb x.work.end x.seen.taken && (eqb x.work.aside x.seen.aside && eqb x.marks x.seen.ignored)) }
{
    let work = x.work;
    let seen = x.seen;
    (work.end == seen.taken) & ((work.aside == seen.aside) & (x.marks == seen.ignored))
}

// No piece may be visited, or a lap did nothing.
pub fn lap_ends(
    cells: &[u16],
    s: Shape,
    q: PickRequest,
    bytes: &[u8],
    ignored: &[bool],
    x: RandomWalk,
) -> bool
    requires { (PicksCells s cells.now q) × (x.place < length ignored.now) }
    ensures { LapTold (request_of q bytes.now) s cells.now ignored.now x result }
{
    let open = stands_open(cells, s, q, bytes, ignored, x.place);
    let same = same_trace(x);
    !open | (x.back & same)
}
