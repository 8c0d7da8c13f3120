// All partials: the pieces are walked, and one that is not Open has its partial next.
ghost use Rattle.std.specs.Prelude.{◌≡◌, ◌+◌, ◌<◌, length};
ghost use Rattle.image_store.specs.Given.{PartialsGot};
ghost use Rattle.image_store.specs.Storing.{Begun, Storing, Passed, PartialsStored};

use geometry::blocks_at;
use image_bytes::read1;
use image_columns::store_partial;
use image_pieces::Head;
use memory_layout::Shape;
use types::{u64_to_usize, usize_to_u64};

// The place of the next record, and how many partials are stored.
#[derive(Drop)]
pub struct Walk {
    pub at: usize,
    pub many: usize,
}

// Piece i: where it is not Open, its partial is stored as the next one.
fn pass_piece(
    bytes: &[u8],
    head: Head,
    s: Shape,
    i: usize,
    w: Walk,
    words: &mut [u64],
    cells: &mut [u16],
    rows: &mut [u32],
) -> Walk
    requires begun { (Begun head s bytes.now words.old cells.old) × (PartialsGot head s.pieces bytes.now) }
    requires storing { (Storing head s bytes.now rows.old words.old cells.old w i) × (i < s.pieces) }
    requires rows_len { length rows.old ≡ 1536 }
    ensures { Passed head s bytes.now words.old cells.old rows.old
        words.new cells.new rows.new result (i + 1) }
{
    let state = read1(bytes, 24 + 10 * i + 3);
    if state == 4 {
        return w;
    }
    let many = u64_to_usize(blocks_at(head.total, head.size, usize_to_u64(i)));
    store_partial(bytes, w.at, i, many, s, w.many, words, cells, rows);
    Walk {
        at: w.at + 6 + 13 * many,
        many: w.many + 1,
    }
}

// The partials of all pieces. The answer is where they end, and how many there are.
pub fn store_partials(
    bytes: &[u8],
    head: Head,
    s: Shape,
    words: &mut [u64],
    cells: &mut [u16],
    rows: &mut [u32],
) -> Walk
    requires begun { (Begun head s bytes.now words.old cells.old) × (PartialsGot head s.pieces bytes.now) }
    requires rows_len { length rows.old ≡ 1536 }
    ensures { PartialsStored head s bytes.now words.old cells.old rows.old
        words.new cells.new rows.new result }
{
    let mut w = Walk {
        at: 24 + 10 * s.pieces,
        many: 0,
    };
    for i in 0..s.pieces {
        w = pass_piece(bytes, head, s, i, w, words, cells, rows);
    }
    w
}
