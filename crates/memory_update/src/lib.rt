// The bucket list in the lent words mended after the rank of one piece changed: its places are lent to `list_words`, and its length stored.
#![tactic(auto)]

ghost use Rattle.std.specs.Prelude.{◌≡◌, false, ◌≤◌, ◌<◌, length};
ghost use Rattle.model.specs.list.Order.{update};
ghost use Rattle.memory_layout.specs.Decode.{head_word, yes?};
ghost use Rattle.memory_list.specs.Listings.{ListBounds, ListBefore, ListBecame};

use memory_fields::{is_dirty, list_length};
use memory_layout::{Shape, list_start};
use memory_list::set_list_length;
use memory_ranks::rank_at;
use types::{u16_to_u64, usize_to_u64};

// `update` of a list that is not dirty.
fn update_list(
    words: &mut [u64],
    cells: &[u16],
    s: Shape,
    i: usize,
    old: u16,
    draws: &[u32],
    used: usize,
) -> usize
    requires list_bounds { ListBounds s words.old cells.now }
    requires i_lt_pieces { i < s.pieces }
    requires list_before { ListBefore s words.old cells.now old i }
    requires words_value { yes? (head_word words.old 5) ≡ false }
    requires used_in_bounds { used ≤ length draws.now }
    ensures { ListBecame s (update draws.now old i)
        words.old words.new cells.now used result }
{
    let new = u16_to_u64(rank_at(words, cells, s, i));
    let was = u16_to_u64(old);
    let piece = usize_to_u64(i);
    let n = s.pieces;
    let a = list_start(s);
    let len = list_length(words, s);
    let done = list_words::update(&mut words[a..a + n], len, piece, was, new, draws, used);
    set_list_length(words, done.len);
    done.used
}

// The list mended after piece i came from rank `old` to the one it has; a dirty list stays so. Answers the number of the next draw.
pub fn update(
    words: &mut [u64],
    cells: &[u16],
    s: Shape,
    i: usize,
    old: u16,
    draws: &[u32],
    used: usize,
) -> usize
    requires list_bounds { ListBounds s words.old cells.now }
    requires i_lt_pieces { i < s.pieces }
    requires list_before { ListBefore s words.old cells.now old i }
    requires used_in_bounds { used ≤ length draws.now }
    ensures { ListBecame s (update draws.now old i)
        words.old words.new cells.now used result }
{
    if is_dirty(words, s) {
        return used;
    }
    update_list(words, cells, s, i, old, draws, used)
}
