// The blocks set aside, appended as far as they are wanted.
ghost use Rattle.std.specs.Prelude.{◌+◌, ◌≤◌, length};
ghost use Rattle.pick_append.specs.Appending.{Copied, Appended};

use pick_state::PickNumbers;

// The first n words set aside copied behind place `at` of the output.
fn copy_blocks(out: &mut [u64], at: usize, aside: &[u64], n: usize)
    requires { (at + n ≤ length out.old) × (n ≤ length aside.now) }
    ensures { Copied at n aside.now out.old out.new }
{
    // No `copy_from_slice`: it is compiled into a call of `memmove`, and makers are told that the archive calls `memcpy` and `memset` alone.
    for k in 0..n {
        out[at + k] = aside[k];
    }
}

// None is set aside from here on.
pub fn append_blocks(out: &mut [u64], aside: &[u64], t: PickNumbers) -> PickNumbers
    requires { (t.end + t.left ≤ length out.old) × (t.aside ≤ length aside.now) }
    ensures { Appended t result out.old out.new aside.now }
{
    let end = t.end;
    let n = t.aside.min(t.left);
    copy_blocks(out, end, aside, n);
    PickNumbers {
        left: t.left - n,
        end: end + n,
        aside: 0,
        ..t
    }
}
