// A peer more or less of one piece in lent memory: `inc_refcount` and `dec_refcount`, whole changes that leave the records.
#![tactic(auto)]

ghost use Rattle.std.specs.Prelude.{◌+◌, ◌≤◌, ◌<◌, length};
ghost use Rattle.model.specs.State.{max_peers, with_piece, with_peer_count};
ghost use Rattle.model.specs.list.Order.{change_and_update};
ghost use Rattle.model.specs.change.Changes.{inc_refcount, dec_refcount};
ghost use Rattle.memory_layout.specs.Decode.{head_word, piece_cell};
ghost use Rattle.memory_layout.specs.Standing.{StandsBeside};
ghost use Rattle.change_steps.specs.Working.{WorksBeside, Goes};
ghost use Rattle.change_steps.specs.Whole.{ChangedBy};
ghost use Rattle.change_counts.specs.Leaving.{LeftBy};

use change_seeds::break_one_seed;
use memory_fields::peer_count;
use memory_layout::Shape;
use memory_ranks::rank_at;
use memory_update::update;

// The piece has so many peers from here on, and the list is mended. A step of a change; answers the number of the next draw.
fn set_peer_count(
    words: &mut [u64],
    cells: &mut [u16],
    s: Shape,
    i: usize,
    count: u16,
    draws: &[u32],
    used: usize,
) -> usize
    requires works_beside { WorksBeside s words.old cells.old }
    requires i_lt_pieces { (i < s.pieces) × (count ≤ max_peers) }
    requires used_in_bounds { used ≤ length draws.now }
    ensures { Goes s (change_and_update draws.now i (with_piece i (with_peer_count count)))
        words.old cells.old used words.new cells.new result }
{
    let old = rank_at(words, cells, s, i);
    memory_piece_stores::set_peer_count(cells, s, i, count);
    update(words, cells, s, i, old, draws, used)
}

// A peer has piece i. Answers how many draws are used, as all changes do.
pub fn inc_refcount(
    words: &mut [u64],
    cells: &mut [u16],
    s: Shape,
    i: usize,
    draws: &[u32],
) -> usize
    requires stands_beside { StandsBeside s words.old cells.old }
    requires i_lt_pieces { i < s.pieces }
    requires words_bound { piece_cell cells.old s.pieces 0 i + head_word words.old 2 < max_peers }
    ensures { ChangedBy s (inc_refcount draws.now i) words.old cells.old
        words.new cells.new result }
{
    let count = peer_count(cells, s, i);
    set_peer_count(words, cells, s, i, count + 1, draws, 0)
}

// A peer of piece i is to go: where only seeds have it, one of them is broken. Answers how many peers the piece is left with.
fn leave_one(words: &mut [u64], cells: &mut [u16], s: Shape, i: usize) -> u16
    requires stands_beside { StandsBeside s words.old cells.old }
    requires i_lt_pieces { i < s.pieces }
    requires nonzero { 0 < piece_cell cells.old s.pieces 0 i + head_word words.old 2 }
    ensures { LeftBy s i words.old cells.old words.new cells.new result }
{
    let count = peer_count(cells, s, i);
    if 0 < count {
        return count - 1;
    }
    break_one_seed(words, cells, s);
    0
}

// A peer has piece i no more.
pub fn dec_refcount(
    words: &mut [u64],
    cells: &mut [u16],
    s: Shape,
    i: usize,
    draws: &[u32],
) -> usize
    requires stands_beside { StandsBeside s words.old cells.old }
    requires i_lt_pieces { i < s.pieces }
    requires nonzero { 0 < piece_cell cells.old s.pieces 0 i + head_word words.old 2 }
    ensures { ChangedBy s (dec_refcount draws.now i) words.old cells.old
        words.new cells.new result }
{
    let count = leave_one(words, cells, s, i);
    set_peer_count(words, cells, s, i, count, draws, 0)
}
