// The totals, each by which pieces it counts.
ghost use Rattle.std.specs.Prelude.{◌≡◌};
ghost use Rattle.model.specs.ask.Questions.{reply_picker, one, num_pad_bytes, ask_num_have, ask_num_filtered, ask_num_have_filtered};
ghost use Rattle.model.specs.ask.Questions.{want, have_want, have, all_pieces};
ghost use Rattle.memory_rows.specs.Lookup.{picker_in};
ghost use Rattle.ask_picker.specs.Asked.{Asked};
ghost use Rattle.ask_totals.specs.Totals.{count_reply};

use crate::count::{Kinds, PieceCount, counted};
use memory_layout::Shape;

// The pad bytes of all pieces.
pub fn num_pad_bytes(words: &[u64], cells: &[u16], rows: &[u32], live: usize, s: Shape) -> u64
    requires { Asked s live rows.now words.now cells.now }
    ensures { one result ≡ reply_picker (picker_in live rows.now words.now cells.now) num_pad_bytes }
{
    let kinds = Kinds::of(|_, _| true);
    counted(words, cells, rows, live, s, kinds).pad_bytes
}

// Pieces that are flushed, or passed while still partials.
pub fn num_have(words: &[u64], cells: &[u16], rows: &[u32], live: usize, s: Shape) -> u64
    requires { Asked s live rows.now words.now cells.now }
    ensures { one result ≡ reply_picker (picker_in live rows.now words.now cells.now) ask_num_have }
{
    let kinds = Kinds::of(|had, _| had);
    counted(words, cells, rows, live, s, kinds).num_pieces
}

// Pieces of priority 0 that are not had.
pub fn num_filtered(words: &[u64], cells: &[u16], rows: &[u32], live: usize, s: Shape) -> u64
    requires { Asked s live rows.now words.now cells.now }
    ensures { one result ≡ reply_picker (picker_in live rows.now words.now cells.now) ask_num_filtered }
{
    let kinds = Kinds::of(|had, out| out & !had);
    counted(words, cells, rows, live, s, kinds).num_pieces
}

// Pieces of priority 0 that are.
pub fn num_have_filtered(words: &[u64], cells: &[u16], rows: &[u32], live: usize, s: Shape) -> u64
    requires { Asked s live rows.now words.now cells.now }
    ensures { one result ≡ reply_picker (picker_in live rows.now words.now cells.now) ask_num_have_filtered }
{
    let kinds = Kinds::of(|had, out| out & had);
    counted(words, cells, rows, live, s, kinds).num_pieces
}

// Pieces that are not filtered.
pub fn want(words: &[u64], cells: &[u16], rows: &[u32], live: usize, s: Shape) -> PieceCount
    requires { Asked s live rows.now words.now cells.now }
    ensures { count_reply result ≡ reply_picker (picker_in live rows.now words.now cells.now) want }
{
    let kinds = Kinds::of(|_, out| !out);
    counted(words, cells, rows, live, s, kinds)
}

// Those of them that are had.
pub fn have_want(words: &[u64], cells: &[u16], rows: &[u32], live: usize, s: Shape) -> PieceCount
    requires { Asked s live rows.now words.now cells.now }
    ensures { count_reply result ≡ reply_picker (picker_in live rows.now words.now cells.now) have_want }
{
    let kinds = Kinds::of(|had, out| had & !out);
    counted(words, cells, rows, live, s, kinds)
}

// Pieces that are had.
pub fn have(words: &[u64], cells: &[u16], rows: &[u32], live: usize, s: Shape) -> PieceCount
    requires { Asked s live rows.now words.now cells.now }
    ensures { count_reply result ≡ reply_picker (picker_in live rows.now words.now cells.now) have }
{
    let kinds = Kinds::of(|had, _| had);
    counted(words, cells, rows, live, s, kinds)
}

pub fn all_pieces(words: &[u64], cells: &[u16], rows: &[u32], live: usize, s: Shape) -> PieceCount
    requires { Asked s live rows.now words.now cells.now }
    ensures { count_reply result ≡ reply_picker (picker_in live rows.now words.now cells.now) all_pieces }
{
    let kinds = Kinds::of(|_, _| true);
    counted(words, cells, rows, live, s, kinds)
}
