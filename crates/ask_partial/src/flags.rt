// The flags of a piece's partial.
ghost use Rattle.std.specs.Prelude.{◌≡◌, true, ◌≤◌, ◌<◌, length};
ghost use Rattle.model.specs.ask.Questions.{reply_piece, flag, ask_have_piece, is_hashing, passed_hash_check, locked?, hashing?};
ghost use Rattle.model.specs.change.Partials.{partial_of};
ghost use Rattle.memory_records.specs.Records.{rising_from};
ghost use Rattle.memory_records.specs.Rows.{records_in};
ghost use Rattle.memory_layout.specs.Bounds.{CellsSpan};
ghost use Rattle.ask_picker.specs.Telling.{RowsSay};
ghost use Rattle.ask_partial.specs.Flags.{IsWeight, flag_found, flag_reply, RowsCellsSay};

use memory_fields::flushed;
use memory_layout::Shape;
use memory_rows::find;

// The flag of a weight: 1 passed, 2 locked, 4 hashing.
fn flag_of(rows: &[u32], live: usize, i: usize, weight: u32) -> Option<bool>
    requires live_bound { (live ≤ 512) × (length rows.now ≡ 1536) }
    requires rows_value { rising_from 0 (records_in live rows.now) ≡ true }
    requires weight { IsWeight weight }
    ensures { RowsSay live rows.now (λ d. flag_found weight (partial_of d i)) result }
{
    let k = find(rows, live, i)?;
    Some(rows[1024 + k] / weight % 2 == 1)
}

pub fn passed_hash_check(rows: &[u32], live: usize, i: usize) -> Option<bool>
    requires live_bound { (live ≤ 512) × (length rows.now ≡ 1536) }
    requires rows_value { rising_from 0 (records_in live rows.now) ≡ true }
    ensures { RowsSay live rows.now (λ d. reply_piece d i passed_hash_check) (flag_reply result) }
{
    flag_of(rows, live, i, 1)
}

pub fn locked(rows: &[u32], live: usize, i: usize) -> Option<bool>
    requires live_bound { (live ≤ 512) × (length rows.now ≡ 1536) }
    requires rows_value { rising_from 0 (records_in live rows.now) ≡ true }
    ensures { RowsSay live rows.now (λ d. reply_piece d i locked?) (flag_reply result) }
{
    flag_of(rows, live, i, 2)
}

pub fn hashing(rows: &[u32], live: usize, i: usize) -> Option<bool>
    requires live_bound { (live ≤ 512) × (length rows.now ≡ 1536) }
    requires rows_value { rising_from 0 (records_in live rows.now) ≡ true }
    ensures { RowsSay live rows.now (λ d. reply_piece d i hashing?) (flag_reply result) }
{
    flag_of(rows, live, i, 4)
}

// Whether a partial stands that is being hashed.
pub fn is_hashing(rows: &[u32], live: usize, i: usize) -> bool
    requires live_bound { (live ≤ 512) × (length rows.now ≡ 1536) }
    requires rows_value { rising_from 0 (records_in live rows.now) ≡ true }
    ensures { RowsSay live rows.now (λ d. reply_piece d i is_hashing) (flag result) }
{
    flag_of(rows, live, i, 4).unwrap_or(false)
}

// Whether the piece is flushed, or passed while still a partial.
pub fn have_piece(cells: &[u16], rows: &[u32], live: usize, s: Shape, i: usize) -> bool
    requires cells_span { CellsSpan s cells.now }
    requires live_bound { (live ≤ 512) × (length rows.now ≡ 1536) }
    requires rows_value { rising_from 0 (records_in live rows.now) ≡ true }
    requires i_lt_pieces { i < s.pieces }
    ensures { RowsCellsSay s live rows.now cells.now (λ d. reply_piece d i ask_have_piece) (flag result) }
{
    if flushed(cells, s, i) {
        return true;
    }
    flag_of(rows, live, i, 1).unwrap_or(false)
}
