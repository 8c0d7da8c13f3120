// What an Open piece adds.
ghost use Rattle.std.specs.Prelude.{◌+◌, ◌<◌};
ghost use Rattle.model.specs.pick.Blocks.{add_new_piece};
ghost use Rattle.pick_state.specs.Requests.{request_of};
ghost use Rattle.pick_new.specs.Runs.{InBuffers, MarksDid, NewRoom};

use crate::blocks::take_blocks;
use crate::spans::take_span;
use memory_layout::Shape;
use memory_piece_blocks::payload_blocks;
use pick_free::expand_piece;
use pick_state::{PickNumbers, PickRequest, contiguous_is_zero};

// Blocks of the Open piece i: without a run as many as are wanted, else the whole span around it.
pub fn add_new_piece(
    words: &[u64],
    cells: &[u16],
    s: Shape,
    q: PickRequest,
    bytes: &[u8],
    out: &mut [u64],
    ignored: &mut [bool],
    t: PickNumbers,
    i: usize,
) -> PickNumbers
    requires new_room { NewRoom s words.now cells.now q t out.old ignored.old }
    requires i_lt_pieces { i < s.pieces }
    ensures { MarksDid (InBuffers s words.now cells.now) (add_new_piece (request_of q bytes.now) i)
        (t.asked + s.blocks) t result out.old out.new ignored.old ignored.new }
{
    if contiguous_is_zero(t) {
        let n = payload_blocks(words, s, i);
        let many = n.min(t.left);
        return take_blocks(out, t, i, many);
    }
    let span = expand_piece(cells, s, q, bytes, t, i);
    take_span(words, s, out, ignored, t, span.first, span.end)
}
