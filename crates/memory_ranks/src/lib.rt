// The ranks of the pieces in the lent buffers, by their cells and the number of seeds: of one piece, and of all.
// The rank by the numbers is that of `list_rank`; none of it reads the records of partials.
#![tactic(auto)]

ghost use Rattle.std.specs.Prelude.{◌≤◌, ◌<◌, eqb, length};
ghost use Rattle.types.specs.Queue.{queue_number};
ghost use Rattle.model.specs.State.{max_peers, max_priority};
ghost use Rattle.memory_layout.specs.Decode.{queue_from};
ghost use Rattle.memory_layout.specs.Bounds.{Spans};
ghost use Rattle.list_rank.specs.Ranks.{IsRank};
ghost use Rattle.memory_ranks.specs.CellRanks.{Ranges, IsRankAt, RanksFilled};

use memory_fields::state_number;
use memory_layout::{Shape, head_word, piece_cell};
use types::{u16_to_u64, u64_to_u16};

// The rank by the four cells of a piece.
fn rank_by(seeds: u64, peer_count: u16, state: u16, priority: u16, flushed: u16) -> u16
    requires peer_count_le_max_peers { peer_count ≤ max_peers }
    requires priority_le_max_priority { priority ≤ max_priority }
    ensures { IsRank seeds peer_count (queue_number (queue_from state)) priority (eqb flushed 1) result }
{
    let number = u16_to_u64(state_number(state));
    u64_to_u16(list_rank::rank(
        seeds,
        u16_to_u64(peer_count),
        number,
        u16_to_u64(priority),
        flushed == 1,
    ))
}

// The rank of piece i: one more than its bucket, and 0 where it is in none.
pub fn rank_at(words: &[u64], cells: &[u16], s: Shape, i: usize) -> u16
    requires spans { Spans s words.now cells.now }
    requires ranges { Ranges s.pieces cells.now }
    requires i_lt_pieces { i < s.pieces }
    ensures { IsRankAt s words.now cells.now i result }
{
    let seeds = head_word(words, 2);
    let peer_count = piece_cell(cells, s, 0, i);
    let state = piece_cell(cells, s, 1, i);
    let priority = piece_cell(cells, s, 2, i);
    let flushed = piece_cell(cells, s, 3, i);
    rank_by(seeds, peer_count, state, priority, flushed)
}

// The ranks of all pieces. The numbers behind them stay as they were.
pub fn rank_pieces(words: &[u64], cells: &[u16], s: Shape, ranks: &mut [u16])
    requires spans { Spans s words.now cells.now }
    requires ranges { Ranges s.pieces cells.now }
    requires pieces_in_bounds { s.pieces ≤ length ranks.old }
    ensures { RanksFilled s words.now cells.now s.pieces ranks.old ranks.new }
{
    let n = s.pieces;
    for i in 0..n {
        ranks[i] = rank_at(words, cells, s, i);
    }
}
