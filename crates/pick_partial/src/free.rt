// The free blocks of a partial, by the column of its blocks' states: taken, or set aside.
ghost use Rattle.std.specs.Prelude.{◌≡◌, ◌&&◌, not, ◌+◌, ◌-◌, ◌%◌, ◌≤◌, ◌<◌, eqb, length};
ghost use Rattle.model.specs.Lists.{when};
ghost use Rattle.model.specs.pick.Blocks.{contiguous_above, took, put_aside, take_free, set_aside};
ghost use Rattle.pick_state.specs.PickStates.{contiguous_of, OutDid, AsideDid};
ghost use Rattle.pick_partial.specs.Free.{PlainStates, partial_by};

use pick_state::{PickNumbers, contiguous_above, put_aside, take};

// The run is over, and no more than one block is wanted.
fn last_wanted(t: PickNumbers) -> bool
    requires { t.given < 4294967296 }
    ensures { result ≡ (not (contiguous_above 0 (contiguous_of t)) && eqb (t.left - 1) 0) }
{
    let above = contiguous_above(t, 0);
    !above & (t.left < 2)
}

// The block after j, round a piece of so many.
fn onward(j: usize, many: usize) -> usize
    requires { (j < many) × (many ≤ 256) }
    ensures { result ≡ (j + 1) % many }
{
    let next = j + 1;
    if next < many {
        return next;
    }
    0
}

// Block j of piece i taken, where it is free.
fn take_if(free: bool, out: &mut [u64], t: PickNumbers, i: usize, j: usize) -> PickNumbers
    requires end_in_bounds { (t.end < length out.old) × (t.given < 4294967296) }
    requires i_bound { (i < 4096) × (j < 256) }
    ensures { OutDid (when free (took i j)) 1 t result out.old out.new }
{
    if free {
        return take(out, t, i, j);
    }
    t
}

// The free blocks of piece i taken, from `first` round the piece, up to the last wanted one once the run is over.
pub fn take_free(
    states: &[u16],
    i: usize,
    first: usize,
    out: &mut [u64],
    t: PickNumbers,
) -> PickNumbers
    requires plain_states { (PlainStates states.now) × (i < 4096) × (first < length states.now) × (length states.now ≤ 256) }
    requires end_in_bounds { (t.end + 256 ≤ length out.old) × (t.given ≤ 65536) }
    ensures { OutDid (take_free (partial_by i states.now) first) 256 t result out.old out.new }
{
    let many = states.len();
    let mut cur = t;
    let mut j = first;
    for k in 0..many {
        let free = states[j] == 0;
        let last = free & last_wanted(cur);
        cur = take_if(free, out, cur, i, j);
        if last {
            return cur;
        }
        j = onward(j, many);
    }
    cur
}

// Block j of piece i set aside, where it is free.
fn put_aside_if(free: bool, aside: &mut [u64], t: PickNumbers, i: usize, j: usize) -> PickNumbers
    requires aside_in_bounds { t.aside < length aside.old }
    requires i_bound { (i < 4096) × (j < 256) }
    ensures { AsideDid (when free (put_aside i j)) 1 t result aside.old aside.new }
{
    if free {
        return put_aside(aside, t, i, j);
    }
    t
}

// The free blocks of piece i set aside, from `first` round the piece, unless enough are there already.
pub fn set_aside(
    states: &[u16],
    i: usize,
    first: usize,
    aside: &mut [u64],
    t: PickNumbers,
) -> PickNumbers
    requires plain_states { (PlainStates states.now) × (i < 4096) × (first < length states.now) × (length states.now ≤ 256) }
    requires aside_in_bounds { (t.aside < length aside.old) × (t.left + 256 ≤ length aside.old) }
    ensures { AsideDid (set_aside (partial_by i states.now) first) 256 t result aside.old aside.new }
{
    if t.left <= t.aside {
        return t;
    }
    let many = states.len();
    let mut cur = t;
    let mut j = first;
    for k in 0..many {
        let free = states[j] == 0;
        cur = put_aside_if(free, aside, cur, i, j);
        j = onward(j, many);
    }
    cur
}
