// How far the picker is: whether anything is left to be had, and how many partials stand in each queue. Each counts once.
#![tactic(auto)]

ghost use Rattle.std.specs.Prelude.{◌≡◌};
ghost use Rattle.model.specs.ask.Questions.{reply_picker, one, flag, is_finished, is_seeding, num_want_left, get_download_queue_sizes};
ghost use Rattle.memory_rows.specs.Lookup.{picker_in};
ghost use Rattle.ask_picker.specs.Asked.{Asked};
ghost use Rattle.ask_progress.specs.Sizes.{sizes_reply};

use ask_totals::{Kinds, counted};
use memory_layout::Shape;
use memory_queues::download_queues;
use types::usize_to_u64;

// How many partials each queue has.
#[repr(C)]
#[derive(Drop)]
pub struct QueueSizes {
    pub downloading: usize,
    pub full: usize,
    pub finished: usize,
    pub zero_prio: usize,
}

// Every piece is had or filtered.
pub fn is_finished(words: &[u64], cells: &[u16], rows: &[u32], live: usize, s: Shape) -> bool
    requires { Asked s live rows.now words.now cells.now }
    ensures { flag result ≡ reply_picker (picker_in live rows.now words.now cells.now) is_finished }
{
    let kinds = Kinds::of(|had, out| had | out);
    counted(words, cells, rows, live, s, kinds).num_pieces == usize_to_u64(s.pieces)
}

// Every piece is had.
pub fn is_seeding(words: &[u64], cells: &[u16], rows: &[u32], live: usize, s: Shape) -> bool
    requires { Asked s live rows.now words.now cells.now }
    ensures { flag result ≡ reply_picker (picker_in live rows.now words.now cells.now) is_seeding }
{
    let kinds = Kinds::of(|had, _| had);
    counted(words, cells, rows, live, s, kinds).num_pieces == usize_to_u64(s.pieces)
}

// As the definition counts: pieces neither had nor filtered, and those that are both.
pub fn num_want_left(words: &[u64], cells: &[u16], rows: &[u32], live: usize, s: Shape) -> u64
    requires { Asked s live rows.now words.now cells.now }
    ensures { one result ≡ reply_picker (picker_in live rows.now words.now cells.now) num_want_left }
{
    let kinds = Kinds::of(|had, out| had == out);
    counted(words, cells, rows, live, s, kinds).num_pieces
}

pub fn get_download_queue_sizes(
    words: &[u64],
    cells: &[u16],
    rows: &[u32],
    live: usize,
    s: Shape,
) -> QueueSizes
    requires { Asked s live rows.now words.now cells.now }
    ensures { sizes_reply result ≡ reply_picker (picker_in live rows.now words.now cells.now)
        get_download_queue_sizes }
{
    let mut queues = [[0; 512]; 4];
    let mut sizes = [0; 4];
    download_queues(cells, rows, live, s, &mut queues, &mut sizes);
    QueueSizes {
        downloading: sizes[0],
        full: sizes[1],
        finished: sizes[2],
        zero_prio: sizes[3],
    }
}
