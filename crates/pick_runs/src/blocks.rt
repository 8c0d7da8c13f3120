// All blocks of one piece.
ghost use Rattle.std.specs.Prelude.{◌+◌, ◌≤◌, ◌<◌, length};
ghost use Rattle.model.specs.pick.Pick.{take_all};
ghost use Rattle.pick_runs.specs.Spans.{HasBlocks, CountRoom, AllDid};

use pick_state::{PickNumbers, contiguous_over, count, flagged, take};
use types::PickerFlags;

// The n blocks of piece k, up to where the run and the blocks wanted are over.
pub fn take_all(
    out: &mut [u64],
    loops: &mut [u64],
    t: PickNumbers,
    k: usize,
    n: usize,
) -> PickNumbers
    requires n_in_bounds { (t.end + n ≤ length out.old) × (t.given + n < 4294967296) }
    requires k_bound { (k < 4096) × (n ≤ 256) }
    requires count_room { CountRoom n loops.old }
    ensures { AllDid (HasBlocks k n) (take_all k) n t result out.old out.new loops.old
        loops.new }
{
    let mut cur = flagged(t, PickerFlags::RANDOM_PIECES);
    for j in 0..n {
        count(loops, 5);
        cur = take(out, cur, k, j);
        if contiguous_over(cur) {
            return cur;
        }
    }
    cur
}
