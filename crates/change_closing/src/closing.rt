// A partial closed: its piece is Open again, or on disk. It relies on a partial of the piece, among partials by rising piece.
ghost use Rattle.std.specs.Prelude.{◌≤◌, ◌<◌, length};
ghost use Rattle.change_closing.specs.Closing.{PartialBeside, Erased, ErasedAndUpdated, Flushed};

use change_cursors::advance_cursors;
use change_state::queue_number;
use memory_layout::Shape;
use memory_partials::drop_partial;
use memory_piece_stores::{set_flushed, set_state};
use memory_ranks::rank_at;
use memory_update::update;
use types::DownloadQueue;

// The partial gone and its piece Open; the list is not mended.
pub fn erase_download_piece(words: &mut [u64], cells: &mut [u16], s: Shape, i: usize)
    requires partial_beside { PartialBeside s i words.old cells.old }
    requires i_lt_pieces { i < s.pieces }
    ensures { Erased s i words.old cells.old words.new cells.new }
{
    drop_partial(words, s);
    let n = queue_number(DownloadQueue::Open);
    set_state(cells, s, i, n);
}

// The same, and the list mended. Answers the number of the next draw.
pub fn erase_and_update(
    words: &mut [u64],
    cells: &mut [u16],
    s: Shape,
    i: usize,
    draws: &[u32],
    used: usize,
) -> usize
    requires partial_beside { PartialBeside s i words.old cells.old }
    requires i_lt_pieces { i < s.pieces }
    requires used_in_bounds { used ≤ length draws.now }
    ensures { ErasedAndUpdated s draws.now i words.old cells.old used
        words.new cells.new result }
{
    let old = rank_at(words, cells, s, i);
    erase_download_piece(words, cells, s, i);
    update(words, cells, s, i, old, draws, used)
}

// The whole piece is on disk, and its partial goes. It has no bucket before or after: no piece's rank changes.
pub fn piece_flushed(words: &mut [u64], cells: &mut [u16], s: Shape, i: usize)
    requires partial_beside { PartialBeside s i words.old cells.old }
    requires i_lt_pieces { i < s.pieces }
    ensures { Flushed s i words.old cells.old words.new cells.new }
{
    erase_download_piece(words, cells, s, i);
    set_flushed(cells, s, i);
    advance_cursors(words, cells, s, i);
}
