// The first block of a piece marked.
ghost use Rattle.std.specs.Prelude.{◌≤◌, ◌<◌, length};
ghost use Rattle.change_first_mark.specs.Marking.{HeldBeside, FirstMarked};

use change_adding::Opening;
use change_blocks::{retally, set_block};
use memory_blocks::{BlockInfo, get_block};
use memory_layout::Shape;
use memory_records::DownloadingPiece;
use types::{BlockState, u32_to_usize};

// What a mark that opens a piece answers: whether the block was marked, the number of the next draw, and the record to put in.
#[derive(Drop)]
pub struct Marked {
    pub answer: bool,
    pub used: usize,
    pub partial: DownloadingPiece,
}

// Block j of the piece that was opened becomes x, unless its pad bytes finished it. At most one draw is used.
pub fn mark_first(
    words: &mut [u64],
    cells: &mut [u16],
    s: Shape,
    i: usize,
    o: Opening,
    j: usize,
    x: BlockInfo,
    draws: &[u32],
) -> Marked
    requires held_beside { HeldBeside s i o.partial.info_idx o.tally j words.old cells.old }
    requires i_lt_pieces { i < s.pieces }
    requires state_bound { x.state ≤ 3 }
    requires used_in_bounds { o.used ≤ length draws.now }
    ensures { FirstMarked s draws.now i o j x words.old cells.old words.new
        cells.new result }
{
    let partial = o.partial;
    let tally = o.tally;
    let p = u32_to_usize(partial.info_idx);
    let b = get_block(words, cells, s, p, j);
    if b.state == BlockState::Finished as u16 {
        return Marked {
            answer: false,
            used: o.used,
            partial,
        };
    }
    let t = retally(tally, b.state, x.state);
    let next = set_block(words, cells, s, i, p, j, x, t, draws, o.used);
    Marked {
        answer: true,
        used: next,
        partial,
    }
}
