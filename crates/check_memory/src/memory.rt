// The whole test, its parts in the order of the definition.
ghost use Rattle.std.specs.Prelude.{◌≡◌, length};
ghost use Rattle.check_memory.specs.Verdicts.{Checked};

use crate::lengths::fits;
use crate::rows::rows_ok;
use check_pieces::head_ok;
use geometry::valid_geometry;
use memory_layout::{head_word, shape_of};
use memory_records::live_records;
use types::Refusal;

// Refused as too short or ill-formed memory, or good. Where it is good, `counts` holds the numbers of each partial's blocks that are
// requested, being written and finished.
pub fn check_memory(
    words: &[u64],
    cells: &[u16],
    rows: &[u32],
    lent: usize,
    counts: &mut [u16],
) -> Result<(), Refusal>
    requires { (length rows.now ≡ 1536) × (length counts.old ≡ 1536) }
    ensures { Checked result lent rows.now words.now cells.now counts.new }
{
    if words.len() < 16 {
        return Err(Refusal::ShortMemory);
    }
    if !valid_geometry(head_word(words, 0), head_word(words, 1)) {
        return Err(Refusal::IllFormedMemory);
    }
    let s = shape_of(words);
    if !fits(words, cells, lent, s) {
        return Err(Refusal::ShortMemory);
    }
    if !head_ok(words) {
        return Err(Refusal::IllFormedMemory);
    }
    let live = live_records(words);
    if !rows_ok(words, cells, rows, live, s, counts) {
        return Err(Refusal::IllFormedMemory);
    }
    Ok(())
}
