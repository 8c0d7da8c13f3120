// Questions of `ask_totals` for callers in C and Rust, each with what it asks and answers.
// Written by tools/asks.py, and not by hand.
ghost use Rattle.std.specs.Prelude.{◌≡◌};
ghost use Rattle.model.specs.ask.Questions.{reply_picker, one, num_pad_bytes, ask_num_have, ask_num_filtered, ask_num_have_filtered};
ghost use Rattle.model.specs.ask.Questions.{want, have_want, have, all_pieces};
ghost use Rattle.memory_rows.specs.Lookup.{picker_in};
ghost use Rattle.ask_picker.specs.Asked.{Asked};
ghost use Rattle.ask_totals.specs.Totals.{count_reply};
ghost use Rattle.link_questions.specs.Lending.{shaped};

use ask_totals::PieceCount;
use link_lists::Geometry;
use memory_layout::Shape;

#[unsafe(no_mangle)]
pub extern "C" fn aq_num_pad_bytes(
    words: &[u64],
    cells: &[u16],
    rows: &[u32],
    live: usize,
    g: Geometry,
) -> u64
    requires { Asked (shaped g) live rows.now words.now cells.now }
    ensures { one result ≡ reply_picker (picker_in live rows.now words.now cells.now) num_pad_bytes }
{
    let s = Shape::from(g);
    ask_totals::num_pad_bytes(words, cells, rows, live, s)
}

#[unsafe(no_mangle)]
pub extern "C" fn aq_num_have(
    words: &[u64],
    cells: &[u16],
    rows: &[u32],
    live: usize,
    g: Geometry,
) -> u64
    requires { Asked (shaped g) live rows.now words.now cells.now }
    ensures { one result ≡ reply_picker (picker_in live rows.now words.now cells.now) ask_num_have }
{
    let s = Shape::from(g);
    ask_totals::num_have(words, cells, rows, live, s)
}

#[unsafe(no_mangle)]
pub extern "C" fn aq_num_filtered(
    words: &[u64],
    cells: &[u16],
    rows: &[u32],
    live: usize,
    g: Geometry,
) -> u64
    requires { Asked (shaped g) live rows.now words.now cells.now }
    ensures { one result ≡ reply_picker (picker_in live rows.now words.now cells.now) ask_num_filtered }
{
    let s = Shape::from(g);
    ask_totals::num_filtered(words, cells, rows, live, s)
}

#[unsafe(no_mangle)]
pub extern "C" fn aq_num_have_filtered(
    words: &[u64],
    cells: &[u16],
    rows: &[u32],
    live: usize,
    g: Geometry,
) -> u64
    requires { Asked (shaped g) live rows.now words.now cells.now }
    ensures { one result ≡ reply_picker (picker_in live rows.now words.now cells.now) ask_num_have_filtered }
{
    let s = Shape::from(g);
    ask_totals::num_have_filtered(words, cells, rows, live, s)
}

#[unsafe(no_mangle)]
pub extern "C" fn aq_want(
    words: &[u64],
    cells: &[u16],
    rows: &[u32],
    live: usize,
    g: Geometry,
) -> PieceCount
    requires { Asked (shaped g) live rows.now words.now cells.now }
    ensures { count_reply result ≡ reply_picker (picker_in live rows.now words.now cells.now) want }
{
    let s = Shape::from(g);
    ask_totals::want(words, cells, rows, live, s)
}

#[unsafe(no_mangle)]
pub extern "C" fn aq_have_want(
    words: &[u64],
    cells: &[u16],
    rows: &[u32],
    live: usize,
    g: Geometry,
) -> PieceCount
    requires { Asked (shaped g) live rows.now words.now cells.now }
    ensures { count_reply result ≡ reply_picker (picker_in live rows.now words.now cells.now) have_want }
{
    let s = Shape::from(g);
    ask_totals::have_want(words, cells, rows, live, s)
}

#[unsafe(no_mangle)]
pub extern "C" fn aq_have(
    words: &[u64],
    cells: &[u16],
    rows: &[u32],
    live: usize,
    g: Geometry,
) -> PieceCount
    requires { Asked (shaped g) live rows.now words.now cells.now }
    ensures { count_reply result ≡ reply_picker (picker_in live rows.now words.now cells.now) have }
{
    let s = Shape::from(g);
    ask_totals::have(words, cells, rows, live, s)
}

#[unsafe(no_mangle)]
pub extern "C" fn aq_all_pieces(
    words: &[u64],
    cells: &[u16],
    rows: &[u32],
    live: usize,
    g: Geometry,
) -> PieceCount
    requires { Asked (shaped g) live rows.now words.now cells.now }
    ensures { count_reply result ≡ reply_picker (picker_in live rows.now words.now cells.now) all_pieces }
{
    let s = Shape::from(g);
    ask_totals::all_pieces(words, cells, rows, live, s)
}
