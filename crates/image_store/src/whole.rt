// The whole image.
ghost use Rattle.std.specs.Prelude.{◌≡◌, length};
ghost use Rattle.image_store.specs.Given.{Image};
ghost use Rattle.image_store.specs.Stored.{Room, ImageStored};

use crate::partials::store_partials;
use crate::ranks::rank_pieces;
use crate::tail::store_tail;
use image_columns::{store_head, store_pieces};
use image_pieces::read_head;
use memory_layout::shape_of;

// The picker of an accepted image, in buffers that are long enough for it. The answer is how many rows are its partials.
pub fn store_image(bytes: &[u8], words: &mut [u64], cells: &mut [u16], rows: &mut [u32]) -> usize
    requires image { (Image bytes.now) × (Room bytes.now words.old cells.old) }
    requires rows_len { length rows.old ≡ 1536 }
    ensures { ImageStored bytes.now result words.old cells.old
        words.new cells.new rows.new }
{
    let head = read_head(bytes).unwrap();
    store_head(words, head);
    let s = shape_of(words);
    store_pieces(bytes, s.pieces, words, cells);
    let mut ranks = [0u16; 4096];
    rank_pieces(cells, s, head.seeds, &mut ranks);
    let w = store_partials(bytes, head, s, words, cells, rows);
    store_tail(bytes, w.at, w.many, &ranks, s.pieces, words);
    w.many
}
