// A standing partial, as a change of its blocks needs it.
ghost use Rattle.std.specs.Prelude.{◌≡◌, ◌<◌, length};
ghost use Rattle.change_tally.specs.Tallied.{TalliesBeside, StandsIn};

use crate::tally_of;
use change_state::Tally;
use memory_counts::finished;
use memory_layout::Shape;
use memory_records::row;
use types::u32_to_usize;

// The place of its blocks, its flags, the numbers of its blocks, and how many of them are finished.
#[derive(Drop)]
pub struct Standing {
    pub place: usize,
    pub flags: u32,
    pub tally: Tally,
    pub finished: u16,
}

// The partial in row k, which is piece i's.
pub fn standing_in(
    words: &[u64],
    rows: &[u32],
    counts: &[u16],
    s: Shape,
    k: usize,
    i: usize,
) -> Standing
    requires tallies_beside { TalliesBeside s words.now rows.now counts.now k i }
    requires i_lt_pieces { i < s.pieces }
    requires rows_len { (length rows.now ≡ 1536) × (length counts.now ≡ 1536) }
    ensures { StandsIn s words.now rows.now counts.now k result }
{
    let record = row(rows, k);
    let place = u32_to_usize(record.info_idx);
    let tally = tally_of(words, rows, counts, s, k, i);
    let held = finished(counts, k);
    Standing {
        place,
        flags: record.flags,
        tally,
        finished: held,
    }
}
