// Groups of a list of words turned by one place: a word comes in or goes out, and one word of each group on the way moves.
// Ranks never fall along the list.
#![tactic(auto)]

ghost use Rattle.std.specs.Prelude.{◌≡◌, suc, ◌≤◌, ◌<◌, length};
ghost use Rattle.list_groups.specs.Places.{Rises};
ghost use Rattle.list_moves.specs.Moves.{NoLower, carried, pushed, pulled};

use list_entries::top_of;
use list_groups::group_end;

// `first` goes to the end of its group; from there the next group's first is held, up to place `end`. A group may be about as long as the
// one before, so the first step is a quarter of that, and the next one goes beyond.
pub fn carry(list: &mut [u64], from: usize, end: usize, first: u64)
    requires from_le_end { from ≤ end }
    requires end_in_bounds { end < length list.old }
    requires rises { Rises from end list.old }
    requires no_lower { NoLower first from end list.old }
    ensures { list.new ≡ carried from end first list.old }
{
    let mut held = first;
    let mut near = 1;
    let mut k = group_end(list, from, end, near, top_of(first));
    // No `for`: each turn goes on at the end of a group, which the search finds there.
    while k < end {
        let next = list[k];
        list[k] = held;
        held = next;
        let start = k + 1;
        k = group_end(list, start, end, near, top_of(held));
        near = (k - start) / 4 + 1;
    }
    list[end] = held;
}

// w comes in at place k, and what stood there and in the groups behind it moves up, to place `end`.
pub fn push(list: &mut [u64], k: usize, end: usize, w: u64)
    requires k_le_end { k ≤ end }
    requires end_in_bounds { end < length list.old }
    requires rises { Rises k end list.old }
    ensures { list.new ≡ pushed k end w list.old }
{
    let first = list[k];
    list[k] = w;
    if k < end {
        carry(list, k + 1, end, first);
    }
}

// The same where the words from k on mostly are one group, whose last word tells so: its first then goes to place `end` at once.
pub fn push_within(list: &mut [u64], k: usize, end: usize, w: u64)
    requires k_le_end { k ≤ end }
    requires end_in_bounds { end < length list.old }
    requires rises { Rises k end list.old }
    ensures { list.new ≡ pushed k end w list.old }
{
    if k + 1 < end {
        let first = list[k];
        if list[end - 1] <= top_of(first) {
            list[k] = w;
            list[end] = first;
            return;
        }
    }
    push(list, k, end, w);
}

// The groups behind place k, up to and with place `last`, move down over it: each group's last goes to where the one before it ended.
pub fn pull(list: &mut [u64], k: usize, last: usize)
    requires k_le_last { k ≤ last }
    requires last_in_bounds { last < length list.old }
    requires rises { Rises (suc k) (suc last) list.old }
    ensures { list.new ≡ pulled k last list.old }
{
    let mut hole = k;
    let mut near = 1;
    // No `for`: each turn goes on at the last of a group, which the search finds there.
    while hole < last {
        let end = group_end(list, hole + 2, last + 1, near, top_of(list[hole + 1]));
        list[hole] = list[end - 1];
        near = (end - hole) / 4 + 1;
        hole = end - 1;
    }
}

// The same where the words behind k mostly are one group, whose last word tells so: that one then goes to place k at once.
pub fn pull_within(list: &mut [u64], k: usize, last: usize)
    requires k_le_last { k ≤ last }
    requires last_in_bounds { last < length list.old }
    requires rises { Rises (suc k) (suc last) list.old }
    ensures { list.new ≡ pulled k last list.old }
{
    if k + 1 < last {
        let w = list[last];
        if w <= top_of(list[k + 1]) {
            list[k] = w;
            return;
        }
    }
    pull(list, k, last);
}
