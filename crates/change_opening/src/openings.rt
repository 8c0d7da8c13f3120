// A piece opened.
ghost use Rattle.std.specs.Prelude.{◌≡◌, ◌<◌, length};
ghost use Rattle.model.specs.change.Changes.{opened};
ghost use Rattle.change_adding.specs.Adding.{VacantBeside, Added};

use crate::extents::record_if_asked;
use change_adding::{Opening, add_download_piece};
use change_state::set_state;
use memory_layout::Shape;
use types::DownloadQueue;

// First in state q. At most two draws are used.
pub fn open_piece(
    words: &mut [u64],
    cells: &mut [u16],
    rows: &[u32],
    live: usize,
    s: Shape,
    i: usize,
    q: DownloadQueue,
    affinity: bool,
    draws: &[u32],
    used: usize,
) -> Opening
    requires vacant_beside { VacantBeside s i live rows.now words.old cells.old }
    requires live_lt_places { (live < s.places) × (length rows.now ≡ 1536) }
    requires i_lt_pieces { i < s.pieces }
    requires used_in_bounds { used < length draws.now }
    ensures { Added s (opened draws.now i q affinity) i live rows.now words.old
        cells.old used words.new cells.new result }
{
    let next = set_state(words, cells, s, i, q, draws, used);
    record_if_asked(words, cells, s, i, affinity);
    add_download_piece(words, cells, rows, live, s, i, draws, next)
}
