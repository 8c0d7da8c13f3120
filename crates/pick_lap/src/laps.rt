// A turn: pieces are passed over, and one is visited.
ghost use Rattle.std.specs.Prelude.{◌+◌, ◌<◌};
ghost use Rattle.model.specs.Lists.{nth};
ghost use Rattle.model.specs.pick.Pick.{lap_step};
ghost use Rattle.memory_rows.specs.Lookup.{picker_in};
ghost use Rattle.pick_state.specs.Requests.{request_of};
ghost use Rattle.pick_free.specs.Picking.{Picks};
ghost use Rattle.pick_walk.specs.Walks.{WalkDid};
ghost use Rattle.pick_lap.specs.Visits.{Lapping};

use crate::visits::random_visit;
use memory_layout::Shape;
use pick_state::PickRequest;
use pick_walk::{RandomWalk, ended, lap_ends, marked, skip};

// On to the next piece that may be visited; the end, where there is none or a lap did nothing, else the visit.
pub fn lap_step(
    words: &[u64],
    cells: &[u16],
    rows: &[u32],
    live: usize,
    s: Shape,
    q: PickRequest,
    bytes: &[u8],
    out: &mut [u64],
    aside: &mut [u64],
    ignored: &mut [bool],
    loops: &mut [u64],
    x: RandomWalk,
    start: usize,
) -> RandomWalk
    requires picks { Picks s live rows.now words.now cells.now q }
    requires lapping { Lapping s (picker_in live rows.now words.now cells.now) x out.old aside.old ignored.old loops.old }
    requires start_lt_pieces { (start < s.pieces) × (nth 0 loops.old 4 + 4096 < 9223372036854775808) }
    ensures { WalkDid 4096 4096 (lap_step (request_of q bytes.now) start) s
        (picker_in live rows.now words.now cells.now) x result
        out.old aside.old ignored.old loops.old
        out.new aside.new ignored.new loops.new }
{
    let y = skip(cells, s, q, bytes, ignored, loops, x, start);
    if lap_ends(cells, s, q, bytes, ignored, y) {
        return ended(y);
    }
    random_visit(
        words,
        cells,
        rows,
        live,
        s,
        q,
        bytes,
        out,
        aside,
        ignored,
        loops,
        marked(y),
        start,
    )
}
