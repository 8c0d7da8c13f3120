// The pieces, which stand ten bytes apart behind the head.
ghost use Rattle.std.specs.Prelude.{◌+◌, ◌*◌, ◌≤◌, length};
ghost use Rattle.image_columns.specs.Columns.{PiecesStored};

use image_lay_pieces::lay_pieces;

// Pad bytes into words; peer count, state, priority and flushed into cells.
pub fn store_pieces(bytes: &[u8], n: usize, words: &mut [u64], cells: &mut [u16])
    requires n_bound { (n ≤ 4096) × (24 + 10 * n ≤ length bytes.now) }
    requires n_in_bounds { (16 + n ≤ length words.old) × (4 * n ≤ length cells.old) }
    ensures { PiecesStored n bytes.now words.old cells.old
        words.new cells.new }
{
    lay_pieces(bytes, 24, n, words, 16, cells, 0, n, 2 * n, 3 * n);
}
