// Questions of `ask_partial` for callers in C and Rust, each with what it asks and answers.
// Written by tools/asks.py, and not by hand.
ghost use Rattle.std.specs.Prelude.{◌≡◌, true, ◌≤◌, ◌<◌, length};
ghost use Rattle.model.specs.ask.Questions.{reply_piece, flag, ask_have_piece, is_hashing, passed_hash_check, locked?, hashing?};
ghost use Rattle.memory_records.specs.Records.{rising_from};
ghost use Rattle.memory_records.specs.Rows.{records_in};
ghost use Rattle.memory_layout.specs.Bounds.{CellsSpan};
ghost use Rattle.ask_picker.specs.Telling.{RowsSay};
ghost use Rattle.ask_partial.specs.Flags.{flag_reply, RowsCellsSay};
ghost use Rattle.link_piece_questions.specs.Lending.{shaped};
ghost use Rattle.link_piece_questions.specs.Answers.{flag_told};

use crate::answers::Told;
use link_lists::Geometry;
use memory_layout::Shape;

#[unsafe(no_mangle)]
pub extern "C" fn aq_passed_hash_check(rows: &[u32], live: usize, i: usize) -> Told
    requires live_bound { (live ≤ 512) × (length rows.now ≡ 1536) }
    requires rows_value { rising_from 0 (records_in live rows.now) ≡ true }
    ensures { RowsSay live rows.now (λ d. reply_piece d i passed_hash_check) (flag_reply (flag_told result)) }
{
    Told::from(ask_partial::passed_hash_check(rows, live, i))
}

#[unsafe(no_mangle)]
pub extern "C" fn aq_locked(rows: &[u32], live: usize, i: usize) -> Told
    requires live_bound { (live ≤ 512) × (length rows.now ≡ 1536) }
    requires rows_value { rising_from 0 (records_in live rows.now) ≡ true }
    ensures { RowsSay live rows.now (λ d. reply_piece d i locked?) (flag_reply (flag_told result)) }
{
    Told::from(ask_partial::locked(rows, live, i))
}

#[unsafe(no_mangle)]
pub extern "C" fn aq_hashing(rows: &[u32], live: usize, i: usize) -> Told
    requires live_bound { (live ≤ 512) × (length rows.now ≡ 1536) }
    requires rows_value { rising_from 0 (records_in live rows.now) ≡ true }
    ensures { RowsSay live rows.now (λ d. reply_piece d i hashing?) (flag_reply (flag_told result)) }
{
    Told::from(ask_partial::hashing(rows, live, i))
}

#[unsafe(no_mangle)]
pub extern "C" fn aq_is_hashing(rows: &[u32], live: usize, i: usize) -> bool
    requires live_bound { (live ≤ 512) × (length rows.now ≡ 1536) }
    requires rows_value { rising_from 0 (records_in live rows.now) ≡ true }
    ensures { RowsSay live rows.now (λ d. reply_piece d i is_hashing) (flag result) }
{
    ask_partial::is_hashing(rows, live, i)
}

#[unsafe(no_mangle)]
pub extern "C" fn aq_have_piece(
    cells: &[u16],
    rows: &[u32],
    live: usize,
    g: Geometry,
    i: usize,
) -> bool
    requires cells_span { CellsSpan (shaped g) cells.now }
    requires live_bound { (live ≤ 512) × (length rows.now ≡ 1536) }
    requires rows_value { rising_from 0 (records_in live rows.now) ≡ true }
    requires i_lt_pieces { i < g.pieces }
    ensures { RowsCellsSay (shaped g) live rows.now cells.now (λ d. reply_piece d i ask_have_piece) (flag result) }
{
    let s = Shape::from(g);
    ask_partial::have_piece(cells, rows, live, s, i)
}
