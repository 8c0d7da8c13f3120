// A piece opened, and its first block marked.
ghost use Rattle.std.specs.Prelude.{◌≡◌, ◌+◌, ◌≤◌, ◌<◌, length};
ghost use Rattle.memory_layout.specs.Decode.{blocks_of};
ghost use Rattle.change_adding.specs.Adding.{VacantBeside};
ghost use Rattle.change_opening.specs.Marking.{OpeningMarked};

use crate::openings::open_piece;
use change_first_mark::{Marked, mark_first};
use memory_blocks::BlockInfo;
use memory_layout::Shape;
use types::DownloadQueue;

// Block j of an Open piece marked. At most three draws are used.
pub fn mark_opening(
    words: &mut [u64],
    cells: &mut [u16],
    rows: &[u32],
    live: usize,
    s: Shape,
    i: usize,
    q: DownloadQueue,
    affinity: bool,
    j: usize,
    x: BlockInfo,
    draws: &[u32],
    used: usize,
) -> Marked
    requires vacant_beside { VacantBeside s i live rows.now words.old cells.old }
    requires live_lt_places { (live < s.places) × (length rows.now ≡ 1536) }
    requires i_lt_pieces { (i < s.pieces) × (j < blocks_of words.old i) }
    requires state_bound { x.state ≤ 3 }
    requires used_in_bounds { used + 2 ≤ length draws.now }
    ensures { OpeningMarked s draws.now i q affinity j x live rows.now words.old
        cells.old used words.new cells.new result }
{
    let o = open_piece(words, cells, rows, live, s, i, q, affinity, draws, used);
    mark_first(words, cells, s, i, o, j, x, draws)
}
