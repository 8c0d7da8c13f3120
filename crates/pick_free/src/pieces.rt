// The tests of one piece. A number that is no piece has no bit, and no cell is read for it.
ghost use Rattle.std.specs.Prelude.{◌≡◌, ◌&&◌, not, ◌<◌, eqb};
ghost use Rattle.model.specs.State.{piece_at};
ghost use Rattle.model.specs.pick.Blocks.{has_bit, is_piece_free, can_pick};
ghost use Rattle.memory_layout.specs.Bounds.{CellsSpan};
ghost use Rattle.memory_fields.specs.Reading.{CellsSay};
ghost use Rattle.pick_state.specs.Requests.{request_of};
ghost use Rattle.pick_free.specs.Picking.{PicksCells};

use bitfield::get_bit;
use memory_fields::{flushed, priority, state};
use memory_layout::Shape;
use pick_state::PickRequest;

// The peer has piece i.
pub fn has_bit(bytes: &[u8], q: PickRequest, i: usize) -> bool
    ensures { result ≡ has_bit (request_of q bytes.now) i }
{
    get_bit(bytes, q.bits, i)
}

// Piece i is neither flushed nor filtered.
fn is_wanted(cells: &[u16], s: Shape, i: usize) -> bool
    requires cells_span { CellsSpan s cells.now }
    requires i_lt_pieces { i < s.pieces }
    ensures { CellsSay s cells.now (λ d. not (piece_at d i).flushed && not (eqb (piece_at d i).priority 0)) result }
{
    let had = flushed(cells, s, i);
    let wish = priority(cells, s, i);
    !had & (wish != 0)
}

// The peer has piece i, and it is neither flushed nor filtered.
pub fn is_piece_free(cells: &[u16], s: Shape, q: PickRequest, bytes: &[u8], i: usize) -> bool
    requires { PicksCells s cells.now q }
    ensures { CellsSay s cells.now (λ d. is_piece_free (request_of q bytes.now) d i) result }
{
    if !has_bit(bytes, q, i) {
        return false;
    }
    is_wanted(cells, s, i)
}

// And no partial stands for it.
pub fn can_pick(cells: &[u16], s: Shape, q: PickRequest, bytes: &[u8], i: usize) -> bool
    requires { PicksCells s cells.now q }
    ensures { CellsSay s cells.now (λ d. can_pick (request_of q bytes.now) d i) result }
{
    if !has_bit(bytes, q, i) {
        return false;
    }
    let wanted = is_wanted(cells, s, i);
    wanted & (state(cells, s, i) == 4)
}
