// The bucket list in the lent words rebuilt where it is dirty: its places are lent to `list_rebuild` with the ranks of all pieces, and its
// length stored.
#![tactic(auto)]

ghost use Rattle.std.specs.Prelude.{◌≡◌, true, ◌≤◌, length};
ghost use Rattle.model.specs.list.Order.{update_pieces};
ghost use Rattle.memory_layout.specs.Decode.{head_word, yes?};
ghost use Rattle.memory_list.specs.Listings.{ListBounds, RanksRight, ListBecame};

use memory_fields::is_dirty;
use memory_layout::{Shape, list_start};
use memory_list::set_list_length;
use memory_ranks::rank_pieces;

// `update_pieces` of a dirty list.
fn rebuild_list(words: &mut [u64], cells: &[u16], s: Shape, draws: &[u32], used: usize) -> usize
    requires list_bounds { ListBounds s words.old cells.now }
    requires words_value { yes? (head_word words.old 5) ≡ true }
    requires used_in_bounds { used ≤ length draws.now }
    ensures { ListBecame s (update_pieces draws.now)
        words.old words.new cells.now used result }
{
    let mut ranks = [0; 4096];
    let n = s.pieces;
    rank_pieces(words, cells, s, &mut ranks);
    let a = list_start(s);
    let done = list_rebuild::update_pieces(&mut words[a..a + n], &ranks, n, draws, used);
    set_list_length(words, done.len);
    done.used
}

// The list rebuilt where it is dirty. Answers the number of the next draw.
pub fn update_pieces(
    words: &mut [u64],
    cells: &[u16],
    s: Shape,
    draws: &[u32],
    used: usize,
) -> usize
    requires list_bounds { ListBounds s words.old cells.now }
    requires ranks_right { RanksRight s words.old cells.now }
    requires used_in_bounds { used ≤ length draws.now }
    ensures { ListBecame s (update_pieces draws.now)
        words.old words.new cells.now used result }
{
    if is_dirty(words, s) {
        return rebuild_list(words, cells, s, draws, used);
    }
    used
}
