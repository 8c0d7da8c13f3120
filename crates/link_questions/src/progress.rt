// Questions of `ask_progress` for callers in C and Rust, each with what it asks and answers.
// Written by tools/asks.py, and not by hand.
ghost use Rattle.std.specs.Prelude.{◌≡◌};
ghost use Rattle.model.specs.ask.Questions.{reply_picker, one, flag, is_finished, is_seeding, num_want_left, get_download_queue_sizes};
ghost use Rattle.memory_rows.specs.Lookup.{picker_in};
ghost use Rattle.ask_picker.specs.Asked.{Asked};
ghost use Rattle.ask_progress.specs.Sizes.{sizes_reply};
ghost use Rattle.link_questions.specs.Lending.{shaped};

use ask_progress::QueueSizes;
use link_lists::Geometry;
use memory_layout::Shape;

#[unsafe(no_mangle)]
pub extern "C" fn aq_is_finished(
    words: &[u64],
    cells: &[u16],
    rows: &[u32],
    live: usize,
    g: Geometry,
) -> bool
    requires { Asked (shaped g) live rows.now words.now cells.now }
    ensures { flag result ≡ reply_picker (picker_in live rows.now words.now cells.now) is_finished }
{
    let s = Shape::from(g);
    ask_progress::is_finished(words, cells, rows, live, s)
}

#[unsafe(no_mangle)]
pub extern "C" fn aq_is_seeding(
    words: &[u64],
    cells: &[u16],
    rows: &[u32],
    live: usize,
    g: Geometry,
) -> bool
    requires { Asked (shaped g) live rows.now words.now cells.now }
    ensures { flag result ≡ reply_picker (picker_in live rows.now words.now cells.now) is_seeding }
{
    let s = Shape::from(g);
    ask_progress::is_seeding(words, cells, rows, live, s)
}

#[unsafe(no_mangle)]
pub extern "C" fn aq_num_want_left(
    words: &[u64],
    cells: &[u16],
    rows: &[u32],
    live: usize,
    g: Geometry,
) -> u64
    requires { Asked (shaped g) live rows.now words.now cells.now }
    ensures { one result ≡ reply_picker (picker_in live rows.now words.now cells.now) num_want_left }
{
    let s = Shape::from(g);
    ask_progress::num_want_left(words, cells, rows, live, s)
}

#[unsafe(no_mangle)]
pub extern "C" fn aq_get_download_queue_sizes(
    words: &[u64],
    cells: &[u16],
    rows: &[u32],
    live: usize,
    g: Geometry,
) -> QueueSizes
    requires { Asked (shaped g) live rows.now words.now cells.now }
    ensures { sizes_reply result ≡ reply_picker (picker_in live rows.now words.now cells.now)
        get_download_queue_sizes }
{
    let s = Shape::from(g);
    ask_progress::get_download_queue_sizes(words, cells, rows, live, s)
}
