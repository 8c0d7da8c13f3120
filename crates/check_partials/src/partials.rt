// The live records: each on its own, beside those before it, and all of them beside the pieces.
ghost use Rattle.std.specs.Prelude.{◌≡◌, true, false, ◌+◌, ◌<◌, ◌≤◌, length};
ghost use Rattle.memory_records.specs.Rows.{records_in};
ghost use Rattle.memory_layout.specs.Decode.{head_word, blocks_of, decode};
ghost use Rattle.memory_layout.specs.Bounds.{ShapeOf, CellsSpan, Spans};
ghost use Rattle.memory_layout.specs.Good.{good_head, good_pieces, good_places, good_partials};
ghost use Rattle.check_blocks.specs.Below.{all_below};
ghost use Rattle.check_blocks.specs.Rows.{Tallied};
ghost use Rattle.check_partials.specs.Records.{blocks_good, record_good, record_next, at_work, Columns, CountsHeld};
ghost use Rattle.check_partials.specs.Records.{Ready, Placed};

use crate::states::state_ok;
use check_blocks::{Counted, Counts, blocks_ok, one_if, set_counts};
use geometry::blocks_at;
use memory_layout::{Shape, head_word, piece_cell, piece_column};
use memory_records::{DownloadingPiece, row};
use types::{u16_to_usize, u32_to_usize, u64_to_u16, u64_to_usize, usize_to_u64};

// How many pieces are not Open.
fn pieces_at_work(cells: &[u16], s: Shape) -> usize
    requires { CellsSpan s cells.now }
    ensures { result ≡ at_work cells.now s.pieces }
{
    let states = piece_column(cells, s, 1);
    let mut many = 0;
    for i in 0..s.pieces {
        many += one_if(states[i] != 4);
    }
    u16_to_usize(many)
}

// The answer for a record that fails.
fn refused() -> Counted
    ensures { result.ok ≡ false }
{
    Counted {
        ok: false,
        counts: Counts {
            requested: 0,
            writing: 0,
            finished: 0,
        },
    }
}

// How many are not free.
fn busy_of(c: Counts) -> u16
    requires { (c.requested ≤ 256) × (c.writing ≤ 256) × (c.finished ≤ 256) }
    ensures { result ≡ c.requested + c.writing + c.finished }
{
    c.requested + c.writing + c.finished
}

// The blocks of a piece at a place are good, and the piece's state is theirs.
fn blocks_good(
    words: &[u64],
    cells: &[u16],
    s: Shape,
    piece: usize,
    place: usize,
    hashing: bool,
) -> Counted
    requires ready { Ready s words.now cells.now }
    requires piece_lt_pieces { (piece < s.pieces) × (place < s.places) }
    ensures { (result.ok ≡ blocks_good words.now cells.now s.pieces s.blocks piece place hashing)
        × Tallied cells.now s.pieces s.blocks place (blocks_of words.now piece) result.counts }
{
    let many = blocks_at(
        head_word(words, 0),
        head_word(words, 1),
        usize_to_u64(piece),
    );
    let counted = blocks_ok(cells, s, place, u64_to_usize(many));
    if !counted.ok {
        return counted;
    }
    let counts = counted.counts;
    let busy = busy_of(counts);
    let state = piece_cell(cells, s, 1, piece);
    let priority = piece_cell(cells, s, 2, piece);
    Counted {
        ok: state_ok(
            state,
            priority,
            counts.requested,
            busy,
            u64_to_u16(many),
            hashing,
        ),
        counts: counts,
    }
}

// A record on its own: its piece, flags and blocks.
fn record_ok(words: &[u64], cells: &[u16], s: Shape, r: DownloadingPiece) -> Counted
    requires ready { Ready s words.now cells.now }
    requires info_idx_bound { r.info_idx < s.places }
    ensures { (result.ok ≡ record_good words.now cells.now s.pieces s.blocks r)
        × (result.ok ≡ true
        → Tallied cells.now s.pieces s.blocks r.info_idx (blocks_of words.now r.index) result.counts) }
{
    let piece = u32_to_usize(r.index);
    if s.pieces <= piece {
        return refused();
    }
    if piece_cell(cells, s, 1, piece) == 4 {
        return refused();
    }
    if 7 < r.flags {
        return refused();
    }
    blocks_good(
        words,
        cells,
        s,
        piece,
        u32_to_usize(r.info_idx),
        4 <= r.flags,
    )
}

// Each record is good, and of a higher piece than those before it.
fn records_pass(
    words: &[u64],
    cells: &[u16],
    rows: &[u32],
    live: usize,
    s: Shape,
    counts: &mut [u16],
) -> bool
    requires ready { (Ready s words.now cells.now) × (Placed s (records_in live rows.now) live) }
    requires rows_len { (length rows.now ≡ 1536) × (length counts.old ≡ 1536) }
    ensures test { result
        ≡ all_below (record_next (records_in live rows.now) words.now cells.now s.pieces s.blocks)
        live }
    ensures long { length counts.new ≡ 1536 }
    ensures counted { result ≡ true
        → Columns (records_in live rows.now) words.now cells.now s.pieces s.blocks live
        counts.new }
{
    let mut lo = 0;
    for k in 0..live {
        let r = row(rows, k);
        if r.index < lo {
            return false;
        }
        let x = record_ok(words, cells, s, r);
        if !x.ok {
            return false;
        }
        set_counts(counts, k, x.counts);
        lo = r.index + 1;
    }
    true
}

// The partials of a memory whose head, pieces and places have passed their tests: good ones, and one for each piece that is not Open. Where
// they pass, `counts` holds the numbers of each partial's blocks that are requested, being written and finished, a column of 512 each.
pub fn partials_ok(
    words: &[u64],
    cells: &[u16],
    rows: &[u32],
    live: usize,
    s: Shape,
    counts: &mut [u16],
) -> bool
    requires shape_of { (ShapeOf s words.now) × (Spans s words.now cells.now) }
    requires live_value { (live ≡ head_word words.now 7) × (length rows.now ≡ 1536) × (length counts.old ≡ 1536) }
    requires cells_value { (good_head (records_in live rows.now) words.now cells.now ≡ true)
        × (good_pieces (records_in live rows.now) words.now cells.now ≡ true)
        × (good_places (records_in live rows.now) words.now ≡ true) }
    ensures test { result ≡ good_partials (records_in live rows.now) words.now cells.now }
    ensures long { length counts.new ≡ 1536 }
    ensures counted { result ≡ true
        → CountsHeld (decode (records_in live rows.now) words.now cells.now) live counts.new }
{
    if !records_pass(words, cells, rows, live, s, counts) {
        return false;
    }
    pieces_at_work(cells, s) == live
}
