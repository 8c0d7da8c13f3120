// The flags of a piece's partial, which the rows name: locked, or passed and flushed at once where every block is on disk.
ghost use Rattle.std.specs.Prelude.{◌≡◌, true, ◌≤◌, ◌<◌, length};
ghost use Rattle.model.specs.Bep3.{bit_of};
ghost use Rattle.model.specs.change.Changes.{lock_piece, piece_passed};
ghost use Rattle.memory_records.specs.Records.{rising_from};
ghost use Rattle.memory_records.specs.Rows.{records_in};
ghost use Rattle.change_steps.specs.Whole.{EditRoom};
ghost use Rattle.change_tally.specs.RowsStanding.{RowsStand};
ghost use Rattle.change_flags.specs.Flagging.{RowsChanged, EditAlone};

use change_closing::piece_flushed;
use memory_counts::finished;
use memory_layout::Shape;
use memory_partials::with_flags;
use memory_piece_blocks::blocks_in_piece;
use memory_records::{DownloadingPiece, Edit, row};
use memory_rows::find;
use types::u16_to_usize;

// No block of the piece is picked, and its hash check counts no more. Nothing where no partial stands.
pub fn lock_piece(rows: &[u32], live: usize, i: usize) -> Edit
    requires live_bound { (live ≤ 512) × (length rows.now ≡ 1536) }
    requires rows_value { rising_from 0 (records_in live rows.now) ≡ true }
    ensures { EditAlone (lock_piece i) live rows.now result }
{
    let Some(k) = find(rows, live, i) else {
        return Edit::Keep;
    };
    let r = row(rows, k);
    Edit::Replace(with_flags(r, false, true))
}

// Bit 2 of the flags.
fn is_locked(r: DownloadingPiece) -> bool
    ensures { result ≡ bit_of r.flags 1 }
{
    r.flags / 2 % 2 == 1
}

// The partial, if one stands and is not locked, passed: the piece is flushed at once where every block is on disk.
// `counts` has the partials' numbers of blocks, as the memory test leaves them.
pub fn piece_passed(
    words: &mut [u64],
    cells: &mut [u16],
    rows: &[u32],
    live: usize,
    counts: &[u16],
    s: Shape,
    i: usize,
) -> Edit
    requires rows_stand { RowsStand s live rows.now counts.now words.old cells.old }
    requires i_lt_pieces { i < s.pieces }
    ensures change { RowsChanged s (piece_passed i) live rows.now words.old cells.old result
        words.new cells.new }
    ensures room { EditRoom s live result }
{
    let Some(k) = find(rows, live, i) else {
        return Edit::Keep;
    };
    let r = row(rows, k);
    if is_locked(r) {
        return Edit::Keep;
    }
    let many = blocks_in_piece(words, s, i);
    if many <= u16_to_usize(finished(counts, k)) {
        piece_flushed(words, cells, s, i);
        return Edit::Remove(r.index);
    }
    Edit::Replace(with_flags(r, true, false))
}
