// Where a word of the bucket list stands: the start of its group is found by `list_groups`, and the group is scanned.
#![tactic(auto)]

ghost use Rattle.std.specs.Prelude.{◌≡◌, ◌≤◌, ◌<◌, length, get_or, take};
ghost use Rattle.model.specs.Lists.{place_of};
ghost use Rattle.list_entries.specs.Words.{listed_rank};
ghost use Rattle.list_groups.specs.Places.{Rises};

use list_entries::top_of;
use list_groups::halve;

// A place from `from` on before which w does not stand: four words are looked at in a turn.
fn pass_fours(list: &[u64], from: usize, end: usize, w: u64) -> usize
    requires end_in_bounds { end ≤ length list.now }
    requires from_bound { from ≤ place_of w (take end list.now) }
    requires list_bound { place_of w (take end list.now) < end }
    ensures { result ≤ place_of w (take end list.now) }
{
    let mut k = from;
    // No `position`: that takes one word in a turn, which is slower.
    while 4 <= end - k {
        if (list[k] == w) | (list[k + 1] == w) | (list[k + 2] == w) | (list[k + 3] == w) {
            return k;
        }
        k += 4;
    }
    k
}

// The start of the group of w, a word that is among the first.
pub fn start_of(list: &[u64], end: usize, w: u64) -> usize
    requires end_in_bounds { end ≤ length list.now }
    requires rises { Rises 0 end list.now }
    requires w_nonzero { 0 < listed_rank w }
    requires list_bound { place_of w (take end list.now) < end }
    ensures { (result ≤ place_of w (take end list.now)) × (listed_rank w ≤ listed_rank (get_or list.now result 0)) }
{
    let top = top_of(w);
    halve(list, 0, end, top - 65536)
}

// Where the word w stands, which is among the first and not before `from`.
pub fn place_from(list: &[u64], from: usize, end: usize, w: u64) -> usize
    requires end_in_bounds { end ≤ length list.now }
    requires from_bound { from ≤ place_of w (take end list.now) }
    requires list_bound { place_of w (take end list.now) < end }
    ensures { result ≡ place_of w (take end list.now) }
{
    let near = pass_fours(list, from, end, w);
    let rest = &list[near..end];
    near + rest.iter().position(|v| w == *v).unwrap()
}

// Where the word w stands, which is among the first. Its group is scanned.
pub fn place_of(list: &[u64], end: usize, w: u64) -> usize
    requires end_in_bounds { end ≤ length list.now }
    requires rises { Rises 0 end list.now }
    requires w_nonzero { 0 < listed_rank w }
    requires list_bound { place_of w (take end list.now) < end }
    ensures { result ≡ place_of w (take end list.now) }
{
    let low = start_of(list, end, w);
    place_from(list, low, end, w)
}
