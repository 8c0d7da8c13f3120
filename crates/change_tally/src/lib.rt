// What stands in the row of a partial, from the local rows and the counts beside them: the numbers of its blocks that `update_piece_state`
// looks at, and what else a change of its blocks needs.
#![tactic(auto)]

mod standing;

ghost use Rattle.std.specs.Prelude.{◌≡◌, ◌<◌, length};
ghost use Rattle.model.specs.Bep3.{bit_of};
ghost use Rattle.memory_records.specs.Rows.{row_at};
ghost use Rattle.change_tally.specs.Tallied.{TalliesBeside, Tallied};

use change_state::Tally;
use memory_counts::{finished, requested, writing};
use memory_layout::Shape;
use memory_piece_blocks::blocks_in_piece;
use memory_records::row;
pub use standing::{Standing, standing_in};

// Bit 4 of the flags of row k: the partial is being hashed.
fn hashing(rows: &[u32], k: usize) -> bool
    requires { (k < 512) × (length rows.now ≡ 1536) }
    ensures { result ≡ bit_of (row_at rows.now k).flags 2 }
{
    let record = row(rows, k);
    record.flags / 4 % 2 == 1
}

// The numbers of the partial in row k, which is piece i's.
pub fn tally_of(words: &[u64], rows: &[u32], counts: &[u16], s: Shape, k: usize, i: usize) -> Tally
    requires tallies_beside { TalliesBeside s words.now rows.now counts.now k i }
    requires i_lt_pieces { i < s.pieces }
    requires rows_len { (length rows.now ≡ 1536) × (length counts.now ≡ 1536) }
    ensures { Tallied s words.now rows.now counts.now k result }
{
    let many = blocks_in_piece(words, s, i);
    let asked = requested(counts, k);
    let came = writing(counts, k);
    let held = finished(counts, k);
    let hashed = hashing(rows, k);
    Tally {
        blocks: many as u16,
        busy: asked + came + held,
        requested: asked,
        hashing: hashed,
    }
}
