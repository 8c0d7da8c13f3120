// The last parts: extents, and a list that ends where the bytes end.
ghost use Rattle.std.specs.Prelude.{◌+◌, ◌*◌, ◌≤◌, ◌<◌, length};
ghost use Rattle.image_store.specs.Given.{Extents, Tail};
ghost use Rattle.image_store.specs.Stored.{TailStored};

use crate::list::store_list;
use image_lay::lay4;
use image_records::stands;
use types::usize_to_u64;

// How many extents stand from `at` on.
fn count_extents(bytes: &[u8], at: usize) -> usize
    requires { at ≤ length bytes.now }
    ensures { Extents at bytes.now result }
{
    for k in 0..5 {
        if !stands(bytes, at + 5 * k, 5) {
            return k;
        }
    }
    5
}

// Extents and list from `at` on, and how many there are of each, with `live` partials before them.
pub fn store_tail(bytes: &[u8], at: usize, live: usize, ranks: &[u16], n: usize, words: &mut [u64])
    requires n_in_bounds { (n ≤ length ranks.now) × (n ≤ 4096) × (Tail at n bytes.now) }
    requires n_in_bounds_2 { (16 + 2 * n ≤ length words.old) × (live ≤ 512) }
    ensures { TailStored n at live ranks.now bytes.now words.old words.new }
{
    let extents = count_extents(bytes, at);
    lay4(bytes, at + 1, 5, extents, words, 9);
    let start = at + 5 * extents;
    let places = (bytes.len() - start) / 5;
    store_list(bytes, start, places, ranks, n, words);
    words[6] = usize_to_u64(places);
    words[7] = usize_to_u64(live);
    words[8] = usize_to_u64(extents);
}
