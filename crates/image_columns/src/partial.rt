// One partial: its row, and its blocks at the place of the row's number.
ghost use Rattle.std.specs.Prelude.{◌≡◌, ◌+◌, ◌*◌, ◌≤◌, ◌<◌, length};
ghost use Rattle.memory_layout.specs.Bounds.{Spans};
ghost use Rattle.image_columns.specs.Columns.{PartialStored};

use crate::blocks::store_blocks;
use image_bytes::read1;
use memory_layout::Shape;
use memory_records::{DownloadingPiece, set_row};
use types::{u64_to_usize, usize_to_u32};

// The partial of piece i, whose record stands at `at`, as number k.
pub fn store_partial(
    bytes: &[u8],
    at: usize,
    i: usize,
    many: usize,
    s: Shape,
    k: usize,
    words: &mut [u64],
    cells: &mut [u16],
    rows: &mut [u32],
)
    requires spans { Spans s words.old cells.old }
    requires i_lt_pieces { (i < s.pieces) × (k < s.places) × (many ≤ s.blocks) × (1 ≤ many) }
    requires many_in_bounds { (at + 6 + 13 * many ≤ length bytes.now) × (length rows.old ≡ 1536) }
    ensures { PartialStored s k i at many bytes.now words.old cells.old rows.old
        words.new cells.new rows.new }
{
    let flags = usize_to_u32(u64_to_usize(read1(bytes, at + 5)));
    let record = DownloadingPiece {
        index: usize_to_u32(i),
        info_idx: usize_to_u32(k),
        flags: flags,
    };
    set_row(rows, k, record);
    store_blocks(bytes, at + 6, many, s, k, words, cells);
}
