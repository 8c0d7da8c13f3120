// The groups of the bucket list: where one starts and ends. Ranks never fall along the list of words.
// A group's end is found by wider and wider steps, then by halving; words are compared with the highest word of a rank, which
// `list_entries` gives, and nothing is divided.
#![tactic(auto)]

ghost use Rattle.std.specs.Prelude.{◌≡◌, ◌≤◌, ◌<◌, length};
ghost use Rattle.list_entries.specs.Words.{listed_rank};
ghost use Rattle.list_groups.specs.Places.{Rises, Splits, Parted, IsGroup};

use list_entries::top_of;

// Places that a search has come to: words up to the one sought stand before `low`, higher ones from `high` on.
#[derive(Drop)]
pub struct Span {
    pub low: usize,
    pub high: usize,
}

// Wider and wider steps, the first of `near` places, up to one that comes to a word above `top`.
pub fn gallop(list: &[u64], from: usize, end: usize, near: usize, top: u64) -> Span
    requires from_le_end { from ≤ end }
    requires end_in_bounds { end ≤ length list.now }
    requires splits { Splits top from end list.now }
    requires near_nonzero { 0 < near }
    ensures { Parted top from end list.now result.low result.high }
{
    let mut low = from;
    let mut step = near;
    // No `for`: how far the next step goes depends on the one before.
    while step <= end - low {
        let k = low + (step - 1);
        if top < list[k] {
            return Span { low, high: k };
        }
        low = k + 1;
        step = 4 * step;
    }
    Span { low, high: end }
}

// As many places as are asked for where w is up to `top`, and none otherwise.
pub fn up_to(w: u64, top: u64, places: usize) -> usize
    ensures value { w ≤ top → result ≡ places }
    ensures value_2 { top < w → result ≡ 0 }
    ensures upper_bound { result ≤ places }
{
    if w <= top { places } else { 0 }
}

// The first word above `top`, by halving.
pub fn halve(list: &[u64], from: usize, end: usize, top: u64) -> usize
    requires from_le_end { from ≤ end }
    requires end_in_bounds { end ≤ length list.now }
    requires splits { Splits top from end list.now }
    ensures { Parted top from end list.now result result }
{
    let mut low = from;
    let mut size = end - from;
    // No `partition_point`: that branches at each word, which the processor cannot foretell, and is slower.
    while 0 < size {
        let half = size - size / 2;
        let w = list[low + (half - 1)];
        low = low + up_to(w, top, half);
        size = size - half;
    }
    low
}

// The first word above `top`, which may be about `near` places off.
pub fn group_end(list: &[u64], from: usize, end: usize, near: usize, top: u64) -> usize
    requires from_le_end { from ≤ end }
    requires end_in_bounds { end ≤ length list.now }
    requires splits { Splits top from end list.now }
    requires near_nonzero { 0 < near }
    ensures { Parted top from end list.now result result }
{
    let within = gallop(list, from, end, near, top);
    halve(list, within.low, within.high, top)
}

// The same where the words up to `end` may well all be up to `top`: the last of them is looked at first.
fn end_within(list: &[u64], from: usize, end: usize, top: u64) -> usize
    requires from_le_end { from ≤ end }
    requires end_in_bounds { end ≤ length list.now }
    requires splits { Splits top from end list.now }
    ensures { Parted top from end list.now result result }
{
    if from < end {
        if list[end - 1] <= top {
            return end;
        }
    }
    group_end(list, from, end, 1, top)
}

// Where the group of w's rank stands, or would: its start may be anywhere and is found by halving, its end is near.
pub fn group_of(list: &[u64], from: usize, end: usize, w: u64) -> Span
    requires from_le_end { from ≤ end }
    requires end_in_bounds { end ≤ length list.now }
    requires rises { Rises from end list.now }
    requires w_nonzero { 0 < listed_rank w }
    ensures { IsGroup (listed_rank w) from end list.now result.low result.high }
{
    let top = top_of(w);
    let low = halve(list, from, end, top - 65536);
    let high = group_end(list, low, end, 1, top);
    Span { low, high }
}

// The same in front of `end`, where the group mostly ends.
pub fn group_before(list: &[u64], end: usize, w: u64) -> Span
    requires end_in_bounds { end ≤ length list.now }
    requires rises { Rises 0 end list.now }
    requires w_nonzero { 0 < listed_rank w }
    ensures { IsGroup (listed_rank w) 0 end list.now result.low result.high }
{
    let top = top_of(w);
    let low = halve(list, 0, end, top - 65536);
    let high = end_within(list, low, end, top);
    Span { low, high }
}

// The same not far behind `from`, where the next groups stand.
pub fn group_ahead(list: &[u64], from: usize, end: usize, w: u64) -> Span
    requires from_le_end { from ≤ end }
    requires end_in_bounds { end ≤ length list.now }
    requires rises { Rises from end list.now }
    requires w_nonzero { 0 < listed_rank w }
    ensures { IsGroup (listed_rank w) from end list.now result.low result.high }
{
    let top = top_of(w);
    let low = group_end(list, from, end, 1, top - 65536);
    let high = group_end(list, low, end, 64, top);
    Span { low, high }
}
