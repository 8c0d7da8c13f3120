// The test of all pieces in one pass, which also fills in their ranks.
ghost use Rattle.std.specs.Prelude.{◌≤◌, length};
ghost use Rattle.memory_layout.specs.Bounds.{CellsSpan};
ghost use Rattle.check_pieces.specs.Parts.{HeadPassed, PieceTest};
ghost use Rattle.check_pieces.specs.Rows.{Level, Passed, row_in, rank_in};

use crate::pads::pads_ok;
use crate::rows::{Joined, join, joined_ok, rank_in};
use geometry::piece_length;
use memory_layout::{Shape, head_word, pad_column, piece_column};
use types::{u64_to_u16, usize_to_u64};

// Each row of four columns. What is wrong is joined and judged once, so that rows are tested many at a time; where nothing is, the first
// ranks are those of the rows.
pub fn rows_pass(
    counts: &[u16],
    states: &[u16],
    priorities: &[u16],
    flushed: &[u16],
    seeds: u16,
    ranks: &mut [u16],
) -> bool
    requires level { Level counts.now states.now priorities.now flushed.now }
    requires seeds_bound { (seeds ≤ 1000) × (length counts.now ≤ length ranks.old) }
    ensures { Passed (row_in seeds counts.now states.now priorities.now flushed.now)
        (rank_in seeds counts.now states.now priorities.now flushed.now)
        (length counts.now) result ranks.new }
{
    let n = counts.len();
    let mut sum = Joined {
        wrong: 0,
        priorities: 0,
        flushed: 0,
    };
    for i in 0..n {
        let count = counts[i];
        let state = states[i];
        let priority = priorities[i];
        let flush = flushed[i];
        sum = join(sum, seeds, count, state, priority, flush);
        ranks[i] = rank_in(seeds, count, state, priority, flush);
    }
    joined_ok(sum)
}

// Where it passes, the first ranks are those of the pieces; nothing is said of the others. Only the last piece may be shorter than the
// piece size.
pub fn pieces_ok(words: &[u64], cells: &[u16], s: Shape, ranks: &mut [u16]) -> bool
    requires head_passed { (HeadPassed s words.now) × (CellsSpan s cells.now) }
    requires pieces_in_bounds { s.pieces ≤ length ranks.old }
    ensures { PieceTest s result words.now cells.now ranks.new }
{
    let size = head_word(words, 1);
    let seeds = u64_to_u16(head_word(words, 2));
    let counts = piece_column(cells, s, 0);
    let states = piece_column(cells, s, 1);
    let priorities = piece_column(cells, s, 2);
    let flushed = piece_column(cells, s, 3);
    if !rows_pass(counts, states, priorities, flushed, seeds, ranks) {
        return false;
    }
    let last = usize_to_u64(s.pieces - 1);
    let long = piece_length(head_word(words, 0), size, last);
    pads_ok(pad_column(words, s), size, long)
}
