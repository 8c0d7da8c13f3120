// The first row whose piece is not below one, in rows that rise by piece: by the steps of memory_halving, or a loop where they are few.
#![tactic(auto)]

ghost use Rattle.std.specs.Prelude.{◌≡◌, true, ◌≤◌, ◌<◌, length};
ghost use Rattle.memory_records.specs.Records.{rising_from};
ghost use Rattle.memory_records.specs.Rows.{records_in};
ghost use Rattle.memory_halving.specs.Halving.{Halves};

use memory_halving::{narrow, one_step, two_steps};
use types::u32_to_usize;

// The first of fewer than 64 live rows whose piece is not below i, or `live`: `width` places on at most.
fn few(rows: &[u32], live: usize, i: usize) -> usize
    requires live_bound { (live < 64) × (length rows.now ≡ 1536) }
    requires rows_value { rising_from 0 (records_in live rows.now) ≡ true }
    ensures { Halves live rows.now i result result }
{
    let mut low = 0;
    let mut width: usize = 64;
    // A `while`, since the width is halved each turn.
    while 0 < width {
        let next = low + (width - width / 2);
        if next <= live {
            if u32_to_usize(rows[next - 1]) < i {
                low = next;
            }
        }
        width = width / 2;
    }
    low
}

// The first live row whose piece is not below i, or `live`.
pub fn lower_bound(rows: &[u32], live: usize, i: usize) -> usize
    requires live_bound { (live ≤ 512) × (length rows.now ≡ 1536) }
    requires rows_value { rising_from 0 (records_in live rows.now) ≡ true }
    ensures { Halves live rows.now i result result }
{
    if live < 64 {
        return few(rows, live, i);
    }
    let of_64 = narrow(rows, live, i);
    let of_16 = two_steps(rows, of_64, 16, i);
    let of_4 = two_steps(rows, of_16, 4, i);
    let of_1 = two_steps(rows, of_4, 1, i);
    one_step(rows, of_1, 1, i)
}
