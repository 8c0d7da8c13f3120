// The local rows of a call, which are its live records: the partial of a piece among them, by the search of memory_lower_bound.
#![tactic(auto)]

ghost use Rattle.std.specs.Prelude.{◌≡◌, true, ◌≤◌, length};
ghost use Rattle.memory_records.specs.Records.{answer_of, seek_from, rising_from};
ghost use Rattle.memory_records.specs.Rows.{records_in};
ghost use Rattle.memory_rows.specs.Lookup.{FoundIn};

use memory_lower_bound::lower_bound;
use types::u32_to_usize;

// The place of piece i among the live rows.
pub fn find(rows: &[u32], live: usize, i: usize) -> Option<usize>
    requires live_bound { (live ≤ 512) × (length rows.now ≡ 1536) }
    requires rows_value { rising_from 0 (records_in live rows.now) ≡ true }
    ensures at { result ≡ answer_of (seek_from live 0 (records_in live rows.now) i) live }
    ensures picker { FoundIn live rows.now i result }
{
    let k = lower_bound(rows, live, i);
    if k < live {
        if u32_to_usize(rows[k]) == i {
            return Some(k);
        }
    }
    None
}
