// The pieces of a span in turn.
ghost use Rattle.std.specs.Prelude.{◌-◌, ◌*◌, ◌≤◌, ◌<◌};
ghost use Rattle.model.specs.Lists.{range};
ghost use Rattle.model.specs.pick.Blocks.{span_step, take_span, take_payload};
ghost use Rattle.pick_new.specs.Runs.{InWords, MarksDid, RunRoom};

use crate::blocks::take_payload;
use memory_layout::Shape;
use memory_piece_blocks::payload_blocks;
use pick_state::{PickNumbers, shorter};

// Piece k of a span: an ignored one only shortens the run; another is ignored from here on, and its payload is taken.
pub fn span_step(
    words: &[u64],
    s: Shape,
    out: &mut [u64],
    ignored: &mut [bool],
    t: PickNumbers,
    k: usize,
) -> PickNumbers
    requires run_room { RunRoom s words.now s.blocks t out.old ignored.old }
    requires k_lt_pieces { k < s.pieces }
    ensures { MarksDid (InWords s words.now) (span_step take_payload k) s.blocks t result out.old
        out.new ignored.old ignored.new }
{
    if ignored[k] {
        return shorter(t);
    }
    ignored[k] = true;
    let n = payload_blocks(words, s, k);
    take_payload(out, t, k, n)
}

// The pieces from `first` up to `end`.
pub fn take_span(
    words: &[u64],
    s: Shape,
    out: &mut [u64],
    ignored: &mut [bool],
    t: PickNumbers,
    first: usize,
    end: usize,
) -> PickNumbers
    requires run_room { RunRoom s words.now ((end - first) * s.blocks) t out.old ignored.old }
    requires first_le_end { (first ≤ end) × (end ≤ s.pieces) }
    ensures { MarksDid (InWords s words.now) (take_span take_payload (range first end)) ((end - first) * s.blocks) t result
        out.old out.new ignored.old ignored.new }
{
    let mut cur = t;
    for k in first..end {
        cur = span_step(words, s, out, ignored, cur, k);
    }
    cur
}
