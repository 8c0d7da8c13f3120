// The numbers of a pick, and the tests of its run.
ghost use Rattle.std.specs.Prelude.{◌≡◌, ◌&&◌, not, eqb, ◌+◌, ◌<◌};
ghost use Rattle.types.specs.Bits.{union};
ghost use Rattle.model.specs.pick.Blocks.{contiguous_is_zero, contiguous_above, whole_pieces};
ghost use Rattle.pick_state.specs.PickStates.{contiguous_of, with_flags, with_given};

use types::PickerFlags;

// Blocks still wanted; the run asked for and the blocks given towards it; draws used; flags set; where the output ends, and how many blocks
// are set aside.
#[derive(Clone, Copy)]
pub struct PickNumbers {
    pub left: usize,
    pub asked: usize,
    pub given: usize,
    pub used: usize,
    pub flags: u32,
    pub end: usize,
    pub aside: usize,
}

// A flag set.
pub fn flagged(t: PickNumbers, flag: PickerFlags) -> PickNumbers
    ensures { result ≡ with_flags (union t.flags flag.0) t }
{
    PickNumbers {
        flags: t.flags | flag.0,
        ..t
    }
}

// A block more towards the run.
pub fn shorter(t: PickNumbers) -> PickNumbers
    requires { t.given < 4294967296 }
    ensures { result ≡ with_given (t.given + 1) t }
{
    PickNumbers {
        given: t.given + 1,
        ..t
    }
}

// Nothing is left of the run, and no more was given.
pub fn contiguous_is_zero(t: PickNumbers) -> bool
    ensures { result ≡ contiguous_is_zero (contiguous_of t) }
{
    t.asked == t.given
}

// More than n are left of the run.
pub fn contiguous_above(t: PickNumbers, n: usize) -> bool
    requires { (t.given < 4294967296) × (n < 4294967296) }
    ensures { result ≡ contiguous_above n (contiguous_of t) }
{
    t.given + n < t.asked
}

// Exactly the run has been given, or more, and no block is wanted.
pub fn contiguous_over(t: PickNumbers) -> bool
    requires { t.given < 4294967296 }
    ensures { result ≡ (not (contiguous_above 0 (contiguous_of t)) && eqb t.left 0) }
{
    let above = contiguous_above(t, 0);
    !above & (t.left == 0)
}

// Pieces of n blocks that hold what is left of the run; none below 0.
pub fn whole_pieces(t: PickNumbers, n: usize) -> usize
    requires { (t.asked < 4294967296) × (0 < n) × (n < 4294967296) }
    ensures { result ≡ whole_pieces n (contiguous_of t) }
{
    let rest = t.asked.saturating_sub(t.given);
    (rest + n - 1) / n
}
