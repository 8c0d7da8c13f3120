// What a piece adds, where it is Open or Downloading, and not ignored.
ghost use Rattle.std.specs.Prelude.{◌≡◌, ◌||◌, eqb, ◌+◌, ◌<◌};
ghost use Rattle.model.specs.pick.Blocks.{keeping_contiguous, add_new_piece, add_blocks};
ghost use Rattle.memory_rows.specs.Lookup.{picker_in};
ghost use Rattle.pick_state.specs.Requests.{request_of};
ghost use Rattle.pick_free.specs.Picking.{Picks};
ghost use Rattle.pick_new.specs.Runs.{InBuffers, MarksDid, NewRoom};
ghost use Rattle.pick_blocks.specs.Blocks.{with_run, PieceRoom, PieceWorked};

use crate::standing::add_standing;
use memory_fields::state;
use memory_layout::Shape;
use pick_new::add_new_piece;
use pick_state::{PickNumbers, PickRequest};

// The same numbers with another run.
fn with_run(t: PickNumbers, asked: usize, given: usize) -> PickNumbers
    ensures { result ≡ with_run asked given t }
{
    PickNumbers {
        asked: asked,
        given: given,
        ..t
    }
}

// The number of the Downloading queue, plain or reverse.
fn is_downloading(state: u16) -> bool
    ensures { result ≡ (eqb state 0 || eqb state 5) }
{
    (state == 0) | (state == 5)
}

// What the Open piece i adds, on a copy of the run.
fn add_open(
    words: &[u64],
    cells: &[u16],
    s: Shape,
    q: PickRequest,
    bytes: &[u8],
    out: &mut [u64],
    ignored: &mut [bool],
    t: PickNumbers,
    i: usize,
) -> PickNumbers
    requires new_room { NewRoom s words.now cells.now q t out.old ignored.old }
    requires i_lt_pieces { i < s.pieces }
    ensures { MarksDid (InBuffers s words.now cells.now)
        (keeping_contiguous (add_new_piece (request_of q bytes.now) i)) (t.asked + s.blocks) t result out.old out.new
        ignored.old ignored.new }
{
    let r = add_new_piece(words, cells, s, q, bytes, out, ignored, t, i);
    with_run(r, t.asked, t.given)
}

// What piece i adds.
pub fn add_blocks(
    words: &[u64],
    cells: &[u16],
    rows: &[u32],
    live: usize,
    s: Shape,
    q: PickRequest,
    bytes: &[u8],
    out: &mut [u64],
    aside: &mut [u64],
    ignored: &mut [bool],
    t: PickNumbers,
    i: usize,
) -> PickNumbers
    requires picks { Picks s live rows.now words.now cells.now q }
    requires piece_room { PieceRoom (picker_in live rows.now words.now cells.now) t out.old aside.old ignored.old }
    requires left_nonzero { (0 < t.left) × (i < s.pieces) }
    ensures { PieceWorked (add_blocks (request_of q bytes.now) i)
        (picker_in live rows.now words.now cells.now) t result out.old aside.old
        ignored.old out.new aside.new ignored.new }
{
    if ignored[i] {
        return t;
    }
    let number = state(cells, s, i);
    if number == 4 {
        return add_open(words, cells, s, q, bytes, out, ignored, t, i);
    }
    if is_downloading(number) {
        return add_standing(words, cells, rows, live, s, q, bytes, out, aside, t, i);
    }
    t
}
