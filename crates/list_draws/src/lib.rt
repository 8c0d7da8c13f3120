// Draws, and a word of the bucket list moved to a drawn place of a group, in place on a lent slice.
// `list` holds the list in its first places, `draws` the words that draws are taken from.
#![tactic(auto)]

ghost use Rattle.std.specs.Prelude.{◌≡◌, suc, ◌+◌, ◌-◌, ◌≤◌, ◌<◌, ltb, length, set};
ghost use Rattle.model.specs.Lists.{bit};
ghost use Rattle.model.specs.list.Order.{draw, swap, earlier, later};
ghost use Rattle.list_entries.specs.Words.{listed_rank};
ghost use Rattle.list_groups.specs.Places.{Rises};

// 1 where there is one, and 0 where there is none.
pub fn some(size: usize) -> usize
    ensures { result ≡ bit (ltb 0 size) }
{
    usize::from(0 < size)
}

// Draw number `used`, from 0 to the limit; beyond the last word it is 0.
pub fn draw(draws: &[u32], used: usize, limit: usize) -> usize
    requires { limit < 18446744073709551615 }
    ensures { result ≡ draw draws.now used limit }
{
    if used < draws.len() {
        return types::u32_to_usize(draws[used]) % (limit + 1);
    }
    0
}

// The words at two places change places.
pub fn swap(list: &mut [u64], k: usize, m: usize)
    requires k_in_bounds { k < length list.old }
    requires m_in_bounds { m < length list.old }
    ensures { list.new ≡ swap list.old k m }
{
    // Two stores and no test. `list.swap` asks first which place comes before the other, and a drawn one may come before, behind or on it.
    let w = list[m];
    list[m] = std::mem::replace(&mut list[k], w);
}

// What stands at k goes, as w, forward to the end of the group from `low` to `high`, and changes places with a drawn one of it.
pub fn to_earlier(
    list: &mut [u64],
    k: usize,
    low: usize,
    high: usize,
    w: u64,
    draws: &[u32],
    used: usize,
)
    requires low_le_high { low ≤ high }
    requires high_le_k { high ≤ k }
    requires k_in_bounds { k < length list.old }
    requires rises { Rises high k list.old }
    ensures { list.new
        ≡ swap (earlier listed_rank high k (set list.old k w)) high (low + draw draws.now used (high - low)) }
{
    let d = draw(draws, used, high - low);
    list_moves::push_within(list, high, k, w);
    swap(list, high, low + d);
}

// What stands at k goes, as w, back to the place before the group from `low` to `high`, and changes places with a drawn one of it.
pub fn to_later(
    list: &mut [u64],
    k: usize,
    low: usize,
    high: usize,
    w: u64,
    draws: &[u32],
    used: usize,
)
    requires k_lt_low { k < low }
    requires low_le_high { low ≤ high }
    requires high_in_bounds { high ≤ length list.old }
    requires rises { Rises (suc k) low list.old }
    ensures { list.new
        ≡ swap (later listed_rank k (low - 1) (set list.old k w)) (low - 1)
        (low - 1 + draw draws.now used (high - low)) }
{
    let d = draw(draws, used, high - low);
    let to = low - 1;
    list_moves::pull_within(list, k, to);
    list[to] = w;
    swap(list, to, to + d);
}
