// A word of the bucket list added, removed, or moved to the group of its new rank, in place on a lent slice, by the moves of `list_moves`
// and `list_draws`. `list` holds the list in its first places, `draws` the words that draws are taken from.
#![tactic(auto)]

ghost use Rattle.std.specs.Prelude.{◌≡◌, ◌≢◌, ◌++◌, suc, ◌+◌, ◌-◌, ◌≤◌, ◌<◌, eqb, length, take, drop};
ghost use Rattle.model.specs.Lists.{count, place_of};
ghost use Rattle.model.specs.list.Order.{added, add_draws, removed, changed, change_draws};
ghost use Rattle.list_entries.specs.Words.{listed_rank};
ghost use Rattle.list_groups.specs.Places.{Rises};
ghost use Rattle.list_changes.specs.Replacing.{replaced};

use list_draws::{draw, some, to_earlier, to_later};

// w comes in at a drawn place of its group. Answers the number of the next draw.
pub fn add(list: &mut [u64], n: usize, w: u64, draws: &[u32], used: usize) -> usize
    requires n_in_bounds { n < length list.old }
    requires rises { Rises 0 n list.old }
    requires w_nonzero { 0 < listed_rank w }
    requires used_in_bounds { used ≤ length draws.now }
    ensures list_after { list.new
        ≡ added listed_rank draws.now used w (take n list.old) ++ drop (suc n) list.old }
    ensures value { result ≡ used + add_draws listed_rank w (take n list.old) }
{
    let g = list_groups::group_of(list, 0, n, w);
    let size = g.high - g.low;
    let d = draw(draws, used, size);
    list_moves::push(list, g.low + d, n, w);
    used + some(size)
}

// The word w, one of the first n, is taken out. Place n - 1, no longer in use, stays as it was.
pub fn remove(list: &mut [u64], n: usize, w: u64)
    requires n_in_bounds { n ≤ length list.old }
    requires rises { Rises 0 n list.old }
    requires w_nonzero { 0 < listed_rank w }
    requires list_bound { place_of w (take n list.old) < n }
    ensures { list.new
        ≡ removed listed_rank (place_of w (take n list.old)) (take n list.old) ++ drop (n - 1) list.old }
{
    let k = list_places::place_of(list, n, w);
    list_moves::pull(list, k, n - 1);
}

// v, one of the first n, goes as w, a word of another rank, to its new group. Answers the number of the next draw.
pub fn change(list: &mut [u64], n: usize, v: u64, w: u64, draws: &[u32], used: usize) -> usize
    requires n_in_bounds { n ≤ length list.old }
    requires rises { Rises 0 n list.old }
    requires v_nonzero { 0 < listed_rank v }
    requires w_nonzero { 0 < listed_rank w }
    requires w_nonzero_2 { listed_rank w ≢ listed_rank v }
    requires list_bound { place_of v (take n list.old) < n }
    requires list_value { count (eqb w) (take n list.old) ≡ 0 }
    requires used_in_bounds { used ≤ length draws.now }
    ensures list_after { list.new
        ≡ changed listed_rank draws.now used (listed_rank v) w (replaced v w (take n list.old))
        ++ drop n list.old }
    ensures value { result ≡ used + change_draws listed_rank w (replaced v w (take n list.old)) }
{
    let low = list_places::start_of(list, n, v);
    let k = list_places::place_from(list, low, n, v);
    if w < v {
        let g = list_groups::group_before(list, low, w);
        to_earlier(list, k, g.low, g.high, w, draws, used);
        return used + some(g.high - g.low);
    }
    let g = list_groups::group_ahead(list, k + 1, n, w);
    to_later(list, k, g.low, g.high, w, draws, used);
    used + some(g.high - g.low)
}
