// A partial added for a piece, and the piece's state after it.
ghost use Rattle.std.specs.Prelude.{◌≡◌, ◌≤◌, ◌<◌, length};
ghost use Rattle.model.specs.change.Partials.{add_download_piece};
ghost use Rattle.change_adding.specs.Adding.{FreshTallied, VacantBeside, Added};

use change_state::{Tally, update_piece_state};
use memory_layout::Shape;
use memory_opening::add_partial;
use memory_piece_blocks::{blocks_in_piece, payload_blocks};
use memory_records::DownloadingPiece;

// A piece opened: the record of its partial, the numbers of the partial's blocks, and the number of the next draw.
#[derive(Drop)]
pub struct Opening {
    pub partial: DownloadingPiece,
    pub tally: Tally,
    pub used: usize,
}

// The numbers of the blocks of a piece just opened: those of pad bytes alone are finished.
fn fresh_tally(many: usize, payload: usize) -> Tally
    requires { (payload ≤ many) × (many ≤ 256) }
    ensures { FreshTallied many payload result }
{
    Tally {
        blocks: many as u16,
        busy: (many - payload) as u16,
        requested: 0,
        hashing: false,
    }
}

// The partial stands, and its pad blocks may move the piece on.
pub fn add_download_piece(
    words: &mut [u64],
    cells: &mut [u16],
    rows: &[u32],
    live: usize,
    s: Shape,
    i: usize,
    draws: &[u32],
    used: usize,
) -> Opening
    requires vacant_beside { VacantBeside s i live rows.now words.old cells.old }
    requires live_lt_places { (live < s.places) × (length rows.now ≡ 1536) }
    requires i_lt_pieces { i < s.pieces }
    requires used_in_bounds { used ≤ length draws.now }
    ensures { Added s (add_download_piece draws.now i) i live rows.now words.old
        cells.old used words.new cells.new result }
{
    let many = blocks_in_piece(words, s, i);
    let payload = payload_blocks(words, s, i);
    let t = fresh_tally(many, payload);
    let partial = add_partial(words, cells, rows, live, s, i, many, payload);
    let next = update_piece_state(words, cells, s, i, t, draws, used);
    Opening {
        partial,
        tally: t,
        used: next,
    }
}
