// A block appended to the output, and one set aside. A block stands as a word: piece · 65,536 + block.
ghost use Rattle.std.specs.Prelude.{◌<◌, length};
ghost use Rattle.model.specs.pick.Blocks.{took, put_aside};
ghost use Rattle.pick_state.specs.PickStates.{OutDid, AsideDid};

use crate::numbers::PickNumbers;
use types::usize_to_u64;

// Block j of piece i appended, towards the run.
pub fn take(out: &mut [u64], t: PickNumbers, i: usize, j: usize) -> PickNumbers
    requires end_in_bounds { (t.end < length out.old) × (t.given < 4294967296) }
    requires i_bound { (i < 4096) × (j < 256) }
    ensures { OutDid (took i j) 1 t result out.old out.new }
{
    let end = t.end;
    let left = t.left.saturating_sub(1);
    out[end] = usize_to_u64(i * 65536 + j);
    PickNumbers {
        left: left,
        given: t.given + 1,
        end: end + 1,
        ..t
    }
}

// Block j of piece i set aside.
pub fn put_aside(aside: &mut [u64], t: PickNumbers, i: usize, j: usize) -> PickNumbers
    requires aside_in_bounds { t.aside < length aside.old }
    requires i_bound { (i < 4096) × (j < 256) }
    ensures { AsideDid (put_aside i j) 1 t result aside.old aside.new }
{
    let at = t.aside;
    aside[at] = usize_to_u64(i * 65536 + j);
    PickNumbers { aside: at + 1, ..t }
}
