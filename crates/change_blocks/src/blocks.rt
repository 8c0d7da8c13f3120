// A block replaced at its place.
ghost use Rattle.std.specs.Prelude.{◌≤◌, ◌<◌, length};
ghost use Rattle.change_blocks.specs.Replacing.{PartialBeside, BlockSet};

use change_state::{Tally, update_piece_state};
use memory_blocks::{BlockInfo, put_block};
use memory_layout::Shape;

// Block j of the partial of piece i at place p becomes x, after which `t` has the numbers of its blocks. Answers the number of the next
// draw.
pub fn set_block(
    words: &mut [u64],
    cells: &mut [u16],
    s: Shape,
    i: usize,
    p: usize,
    j: usize,
    x: BlockInfo,
    t: Tally,
    draws: &[u32],
    used: usize,
) -> usize
    requires partial_beside { PartialBeside s words.old cells.old i p j }
    requires i_lt_pieces { i < s.pieces }
    requires state_bound { x.state ≤ 3 }
    requires used_in_bounds { used ≤ length draws.now }
    ensures { BlockSet s draws.now i p j x t words.old cells.old used
        words.new cells.new result }
{
    put_block(words, cells, s, p, j, x);
    update_piece_state(words, cells, s, i, t, draws, used)
}
