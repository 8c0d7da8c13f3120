// On to the next piece that may be visited.
ghost use Rattle.std.specs.Prelude.{◌≡◌, false, not, ◌&&◌, ◌||◌, ◌+◌, ◌<◌, length};
ghost use Rattle.model.specs.Lists.{nth};
ghost use Rattle.model.specs.pick.Blocks.{is_piece_free};
ghost use Rattle.pick_state.specs.Requests.{request_of};
ghost use Rattle.pick_free.specs.Picking.{PicksCells};
ghost use Rattle.pick_walk.specs.Walks.{next_piece, WalkCells, Tells, Skipped};

use crate::tests::stands_open;
use crate::walk::{RandomWalk, moved};
use memory_layout::Shape;
use pick_state::{PickRequest, count};

// The piece after i, round the torrent.
pub fn onward(pieces: usize, i: usize) -> usize
    requires { i < 4294967296 }
    ensures { result ≡ next_piece pieces i }
{
    if pieces <= i + 1 {
        return 0;
    }
    i + 1
}

// At a piece that may be visited, or back at the start.
fn skip_done(
    cells: &[u16],
    s: Shape,
    q: PickRequest,
    bytes: &[u8],
    ignored: &[bool],
    place: usize,
    back: bool,
) -> bool
    requires { (PicksCells s cells.now q) × (place < length ignored.now) }
    ensures { Tells s cells.now
        (λ d. back || (is_piece_free (request_of q bytes.now) d place && not (nth false ignored.now place))) result }
{
    let open = stands_open(cells, s, q, bytes, ignored, place);
    back | open
}

// On to the next piece that may be visited, or round to the start.
pub fn skip(
    cells: &[u16],
    s: Shape,
    q: PickRequest,
    bytes: &[u8],
    ignored: &[bool],
    loops: &mut [u64],
    x: RandomWalk,
    start: usize,
) -> RandomWalk
    requires walk_cells { (WalkCells s cells.now q) × (length ignored.now ≡ 4096) × (length loops.old ≡ 7) }
    requires place_lt_pieces { (x.place < s.pieces) × (start < s.pieces) }
    requires loops_bound { nth 0 loops.old 4 + 4096 < 9223372036854775808 }
    ensures { Skipped (request_of q bytes.now) start s cells.now 4096 x result ignored.now loops.old
        loops.new }
{
    let mut place = x.place;
    let mut back = false;
    // No `for`: the walk goes round from the last piece to the first, and ends by a test of the piece that it stands at.
    while !skip_done(cells, s, q, bytes, ignored, place, back) {
        count(loops, 4);
        place = onward(s.pieces, place);
        back = place == start;
    }
    moved(x, place, back)
}
