// The steps of a search by halving in rows that rise by piece: plain numbers, and no picker is meant yet. The steps are the same ones for
// every piece, so that no branch has to be guessed, and from 64 rows on those that two steps may look at are read at once: the second one
// does not wait for the first one's row.
#![tactic(auto)]

ghost use Rattle.std.specs.Prelude.{◌≡◌, true, ◌+◌, ◌*◌, ◌≤◌, ◌<◌, length};
ghost use Rattle.memory_records.specs.Records.{rising_from};
ghost use Rattle.memory_records.specs.Rows.{records_in};
ghost use Rattle.memory_halving.specs.Halving.{stepped, stepped_twice, Narrowed};

use types::u32_to_usize;

// The place `step` on, if the row before it is of a lower piece than i.
pub fn one_step(rows: &[u32], low: usize, step: usize, i: usize) -> usize
    requires { (0 < step) × (low + step ≤ 512) × (length rows.now ≡ 1536) }
    ensures { result ≡ stepped rows.now i step low }
{
    let next = low + step;
    if u32_to_usize(rows[next - 1]) < i {
        next
    } else {
        low
    }
}

// A step twice as long, then one.
pub fn two_steps(rows: &[u32], low: usize, step: usize, i: usize) -> usize
    requires { (0 < step) × (low + 3 * step ≤ 512) × (length rows.now ≡ 1536) }
    ensures { result ≡ stepped_twice rows.now i step low }
{
    let middle = low + 2 * step;
    let near = one_step(rows, low, step, i);
    let far = one_step(rows, middle, step, i);
    if u32_to_usize(rows[middle - 1]) < i {
        far
    } else {
        near
    }
}

// Of at most twice `width` live rows the lower or the upper `width` ones: the search goes on in these.
pub fn first_step(rows: &[u32], live: usize, width: usize, i: usize) -> usize
    requires width_nonzero { (0 < width) × (width ≤ live) × (live ≤ 2 * width) × (live ≤ 512) × (length rows.now ≡ 1536) }
    requires rows_value { rising_from 0 (records_in live rows.now) ≡ true }
    ensures { Narrowed live rows.now i width result }
{
    let low = one_step(rows, 0, width, i);
    let most = live - width;
    if low < most { low } else { most }
}

// The same down to 64 rows.
pub fn narrow(rows: &[u32], live: usize, i: usize) -> usize
    requires le_live { (64 ≤ live) × (live ≤ 512) × (length rows.now ≡ 1536) }
    requires rows_value { rising_from 0 (records_in live rows.now) ≡ true }
    ensures { Narrowed live rows.now i 64 result }
{
    if 256 <= live {
        let low = first_step(rows, live, 256, i);
        return two_steps(rows, low, 64, i);
    }
    if 128 <= live {
        let low = first_step(rows, live, 128, i);
        return one_step(rows, low, 64, i);
    }
    first_step(rows, live, 64, i)
}
