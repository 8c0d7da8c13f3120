// The parts of the test behind the head: pieces, places, partials, extents and list.
ghost use Rattle.std.specs.Prelude.{◌≡◌, ◌≤◌, length};
ghost use Rattle.check_memory.specs.Verdicts.{Begun, RowTest};

use check_list::list_ok;
use check_partials::{partials_ok, places_ok};
use check_pieces::{extents_ok, pieces_ok};
use memory_layout::Shape;

// The ranks are lent for those of the pieces.
fn rows_with(
    words: &[u64],
    cells: &[u16],
    rows: &[u32],
    live: usize,
    s: Shape,
    ranks: &mut [u16],
    counts: &mut [u16],
) -> bool
    requires begun { Begun s live words.now cells.now }
    requires rows_len { (length rows.now ≡ 1536) × (length counts.old ≡ 1536) }
    requires pieces_in_bounds { s.pieces ≤ length ranks.old }
    ensures { RowTest result live rows.now words.now cells.now counts.new }
{
    if !pieces_ok(words, cells, s, ranks) {
        return false;
    }
    if !places_ok(words, rows, live, s) {
        return false;
    }
    if !partials_ok(words, cells, rows, live, s, counts) {
        return false;
    }
    if !extents_ok(words, s) {
        return false;
    }
    list_ok(words, s, ranks)
}

// The same with ranks of its own. A small picker has few, since each is cleared.
pub fn rows_ok(
    words: &[u64],
    cells: &[u16],
    rows: &[u32],
    live: usize,
    s: Shape,
    counts: &mut [u16],
) -> bool
    requires begun { Begun s live words.now cells.now }
    requires rows_len { (length rows.now ≡ 1536) × (length counts.old ≡ 1536) }
    ensures { RowTest result live rows.now words.now cells.now counts.new }
{
    if s.pieces <= 512 {
        let mut ranks = [0; 512];
        return rows_with(words, cells, rows, live, s, &mut ranks, counts);
    }
    let mut ranks = [0; 4096];
    rows_with(words, cells, rows, live, s, &mut ranks, counts)
}
