// The places of the list: each a word of the piece and its rank.
ghost use Rattle.std.specs.Prelude.{◌+◌, ◌*◌, ◌≤◌, ◌<◌, length};
ghost use Rattle.image_lay.specs.Laid.{Laid};
ghost use Rattle.image_store.specs.Given.{place_word, Places};

use image_bytes::read4;
use list_entries::list_word;
use types::u64_to_usize;

// `many` places of n pieces, whose records stand from `at` on.
pub fn store_list(bytes: &[u8], at: usize, many: usize, ranks: &[u16], n: usize, words: &mut [u64])
    requires n_in_bounds { (n ≤ length ranks.now) × (n ≤ 4096) × (Places at n bytes.now many) }
    requires n_in_bounds_2 { 16 + 2 * n ≤ length words.old }
    ensures { Laid (16 + n) many (place_word ranks.now at bytes.now)
        words.old words.new }
{
    let start = 16 + n;
    for j in 0..many {
        let piece = read4(bytes, at + 5 * j + 1);
        words[start + j] = list_word(ranks[u64_to_usize(piece)], piece);
    }
}
