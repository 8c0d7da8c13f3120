// The first blocks of one piece, appended.
ghost use Rattle.std.specs.Prelude.{◌≡◌, ◌+◌, ◌≤◌, ◌<◌, ◌&&◌, eqb, length};
ghost use Rattle.model.specs.Lists.{from, for_each, walk};
ghost use Rattle.model.specs.pick.Blocks.{took, contiguous_is_zero, contiguous_met};
ghost use Rattle.pick_state.specs.PickStates.{contiguous_of, OutDid};
ghost use Rattle.pick_new.specs.Taken.{taken_numbers};

use pick_free::saturating_sub;
use pick_state::PickNumbers;
use types::usize_to_u64;

// The numbers after n blocks more.
fn taken(t: PickNumbers, n: usize) -> PickNumbers
    requires { (t.end + n < 18446744073709551616) × (t.given + n < 18446744073709551616) }
    ensures { result ≡ taken_numbers n t }
{
    let left = saturating_sub(t.left, n);
    PickNumbers {
        left: left,
        given: t.given + n,
        end: t.end + n,
        ..t
    }
}

// The first n blocks of piece i. Only their words are written one by one: the numbers follow from n.
pub fn take_blocks(out: &mut [u64], t: PickNumbers, i: usize, n: usize) -> PickNumbers
    requires n_in_bounds { (t.end + n ≤ length out.old) × (t.given + n < 4294967296) }
    requires i_bound { (i < 4096) × (n ≤ 256) }
    ensures { OutDid (for_each (took i) (from 0 n)) n t result out.old out.new }
{
    let end = t.end;
    let base = i * 65536;
    for j in 0..n {
        out[end + j] = usize_to_u64(base + j);
    }
    taken(t, n)
}

// After n blocks more exactly the run has been given, and no block is wanted.
fn met_after(t: PickNumbers, n: usize) -> bool
    requires { t.given + n < 18446744073709551616 }
    ensures { result ≡ (contiguous_is_zero (contiguous_of (taken_numbers n t)) && eqb (taken_numbers n t).left 0) }
{
    let left = saturating_sub(t.left, n);
    (t.asked == t.given + n) & (left == 0)
}

// The same, up to where the run and the blocks wanted are met.
pub fn take_payload(out: &mut [u64], t: PickNumbers, i: usize, n: usize) -> PickNumbers
    requires n_in_bounds { (t.end + n ≤ length out.old) × (t.given + n < 4294967296) }
    requires i_bound { (i < 4096) × (n ≤ 256) }
    ensures { OutDid (walk (took i) contiguous_met (from 0 n)) n t result out.old out.new }
{
    let end = t.end;
    let base = i * 65536;
    for j in 0..n {
        out[end + j] = usize_to_u64(base + j);
        if met_after(t, j + 1) {
            return taken(t, j + 1);
        }
    }
    taken(t, n)
}
