// The bucket list as words of rank and piece, in place on a lent slice, mended after the rank of one piece changed: the piece is added,
// removed, or moved by `list_changes`. `list` holds the list in its first places, `draws` the words that draws are taken from.
#![tactic(auto)]

ghost use Rattle.std.specs.Prelude.{◌+◌, ◌≤◌, ◌<◌, eqb, length, take};
ghost use Rattle.model.specs.Lists.{bit};
ghost use Rattle.list_words.specs.Updating.{Ready, Updates};

use list_changes::{add, change, remove};

// How long the list is, and the number of the next draw.
#[repr(C)]
#[derive(Drop)]
pub struct Updated {
    pub len: usize,
    pub used: usize,
}

// The list mended after piece i came from rank `old` to `new`; rank 0 is in no list.
pub fn update(
    list: &mut [u64],
    n: usize,
    i: u64,
    old: u64,
    new: u64,
    draws: &[u32],
    used: usize,
) -> Updated
    requires in_bounds { n + bit (eqb old 0) ≤ length list.old }
    requires i_bound { i < 65536 }
    requires bound { old < 65536 }
    requires bound_2 { new < 65536 }
    requires ready { Ready old i (take n list.old) }
    requires used_in_bounds { used ≤ length draws.now }
    ensures { Updates new draws.now used old i (take n list.old)
        list.old list.new result.len result.used }
{
    if new == old {
        return Updated { len: n, used };
    }
    let w = new * 65536 + i;
    if old == 0 {
        let next = add(list, n, w, draws, used);
        return Updated {
            len: n + 1,
            used: next,
        };
    }
    let v = old * 65536 + i;
    if new == 0 {
        remove(list, n, v);
        return Updated { len: n - 1, used };
    }
    let next = change(list, n, v, w, draws, used);
    Updated { len: n, used: next }
}
