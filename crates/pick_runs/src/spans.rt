// The pieces of a span in turn.
ghost use Rattle.std.specs.Prelude.{◌≡◌, false, not, ◌+◌, ◌-◌, ◌*◌, ◌≤◌, ◌<◌};
ghost use Rattle.model.specs.Lists.{bit, nth, range};
ghost use Rattle.model.specs.pick.Blocks.{span_step, take_span};
ghost use Rattle.model.specs.pick.Pick.{take_all};
ghost use Rattle.pick_new.specs.Runs.{InWords};
ghost use Rattle.pick_runs.specs.Spans.{SpanRoom, SpanDid};

use crate::blocks::take_all;
use memory_layout::Shape;
use memory_piece_blocks::blocks_in_piece;
use pick_state::{PickNumbers, shorter};

// A span taken: the pick's numbers, and how many pieces were marked.
#[derive(Drop)]
pub struct RandomSpan {
    pub work: PickNumbers,
    pub marks: usize,
}

// One more where a piece was not marked before.
fn marked(marks: usize, was: bool) -> usize
    requires { marks < 4294967296 }
    ensures { result ≡ marks + bit (not was) }
{
    if was {
        return marks;
    }
    marks + 1
}

// Piece k of a span: an ignored one only shortens the run; another is ignored from here on, and its blocks are taken.
pub fn random_step(
    words: &[u64],
    s: Shape,
    out: &mut [u64],
    ignored: &mut [bool],
    loops: &mut [u64],
    t: PickNumbers,
    k: usize,
) -> PickNumbers
    requires span_room { SpanRoom s words.now s.blocks t out.old ignored.old loops.old }
    requires k_lt_pieces { k < s.pieces }
    ensures { SpanDid (InWords s words.now) (span_step take_all k) s.blocks (bit (not (nth false ignored.old k))) t result
        out.old out.new ignored.old ignored.new loops.old loops.new }
{
    if ignored[k] {
        return shorter(t);
    }
    ignored[k] = true;
    let n = blocks_in_piece(words, s, k);
    take_all(out, loops, t, k, n)
}

// The pieces from `first` up to `end`.
pub fn take_random_span(
    words: &[u64],
    s: Shape,
    out: &mut [u64],
    ignored: &mut [bool],
    loops: &mut [u64],
    t: PickNumbers,
    first: usize,
    end: usize,
) -> RandomSpan
    requires span_room { SpanRoom s words.now ((end - first) * s.blocks) t out.old ignored.old loops.old }
    requires first_le_end { (first ≤ end) × (end ≤ s.pieces) }
    ensures { SpanDid (InWords s words.now) (take_span take_all (range first end)) ((end - first) * s.blocks) result.marks t result.work
        out.old out.new ignored.old ignored.new loops.old loops.new }
{
    let mut cur = t;
    let mut marks = 0;
    for k in first..end {
        marks = marked(marks, ignored[k]);
        cur = random_step(words, s, out, ignored, loops, cur, k);
    }
    RandomSpan {
        work: cur,
        marks: marks,
    }
}
