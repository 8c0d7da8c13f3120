// The partials, each followed by its blocks.
ghost use Rattle.std.specs.Prelude.{◌+◌, ◌*◌, ◌≤◌, ◌<◌, length};
ghost use Rattle.model.specs.Lists.{concat_map};
ghost use Rattle.model.specs.image.Image.{partial_records};
ghost use Rattle.memory_records.specs.Rows.{records_in};
ghost use Rattle.memory_layout.specs.Decode.{blocks_of, partial_held, partials_held};
ghost use Rattle.memory_layout.specs.Bounds.{ShapeOf, Spans, PlainRecord};
ghost use Rattle.ask_picker.specs.Asked.{Asked};
ghost use Rattle.image_parts.specs.Parts.{Appended};

use crate::blocks::put_blocks;
use geometry::blocks_at;
use image_bytes::body_length;
use image_put::put_partial;
use memory_layout::{Shape, head_word};
use memory_records::{DownloadingPiece, row};
use types::{u32_to_usize, u64_to_usize, usize_to_u64};

// The partial of a record.
fn put_partial_at(
    words: &[u64],
    cells: &[u16],
    s: Shape,
    d: DownloadingPiece,
    bytes: &mut [u8],
    at: usize,
) -> usize
    requires spans { (Spans s words.now cells.now) × (ShapeOf s words.now) }
    requires plain_record { PlainRecord s.pieces s.blocks words.now cells.now d }
    requires index_lt_pieces { (d.index < s.pieces) × (d.info_idx < s.places) × (blocks_of words.now d.index ≤ s.blocks) }
    requires index_in_bounds { at + (6 + 13 * blocks_of words.now d.index) ≤ length bytes.old }
    ensures { Appended at (partial_records (partial_held words.now cells.now s.pieces s.blocks d))
        bytes.old bytes.new result }
{
    let piece = usize_to_u64(u32_to_usize(d.index));
    let flags = usize_to_u64(u32_to_usize(d.flags));
    let place = u32_to_usize(d.info_idx);
    let many = u64_to_usize(blocks_at(head_word(words, 0), head_word(words, 1), piece));
    put_partial(bytes, at, piece, flags);
    put_blocks(
        words,
        cells,
        s,
        place,
        many,
        bytes,
        at + (1 + body_length(3)),
    )
}

// Those of the live rows.
pub fn put_partials(
    words: &[u64],
    cells: &[u16],
    rows: &[u32],
    live: usize,
    s: Shape,
    bytes: &mut [u8],
    at: usize,
) -> usize
    requires asked { Asked s live rows.now words.now cells.now }
    requires blocks_in_bounds { at + length (concat_map partial_records (partials_held (records_in live rows.now) words.now cells.now s.pieces s.blocks))
        ≤ length bytes.old }
    ensures { Appended at
        (concat_map partial_records (partials_held (records_in live rows.now) words.now cells.now s.pieces s.blocks))
        bytes.old bytes.new result }
{
    let mut next = at;
    for k in 0..live {
        next = put_partial_at(words, cells, s, row(rows, k), bytes, next);
    }
    next
}
