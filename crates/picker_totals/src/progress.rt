// How far the picker is.
// Written by tools/publics.py, and not by hand.
ghost use Rattle.std.specs.Prelude.{◌≡◌, length};
ghost use Rattle.model.specs.ask.Questions.{of_picker, is_finished, is_seeding, num_want_left, get_download_queue_sizes};
ghost use Rattle.model.specs.Calls.{question};
ghost use Rattle.picker_calls.specs.Calling.{answer_on};
ghost use Rattle.picker_calls.specs.Cores.{lending};
ghost use Rattle.picker_answers.specs.Admitting.{CoreAnswered};
ghost use Rattle.picker_answers.specs.Answers.{flag_answer, number_answer};
ghost use Rattle.picker_totals.specs.Answers.{sizes_answer};

use ask_progress::QueueSizes;
use memory_records::{DownloadingPiece, live_records, unpack};
use picker_answers::admit_picker;
use types::Refusal;

fn is_finished_core(
    words: &[u64],
    cells: &[u16],
    rows: &[u32],
    lent: usize,
) -> Result<bool, Refusal>
    requires { length rows.now ≡ 1536 }
    ensures { CoreAnswered words.now cells.now rows.now lent
        (of_picker is_finished) (flag_answer result) }
{
    let mut counts = [0; 1536];
    let picker = admit_picker(words, cells, rows, lent, &mut counts)?;
    Ok(ask_progress::is_finished(words, cells, rows, picker.live, picker.shape))
}

// Every piece is had or filtered.
pub fn is_finished(
    words: &[u64],
    cells: &[u16],
    partials: &[DownloadingPiece],
) -> Result<bool, Refusal>
    ensures { flag_answer result ≡ answer_on (lending words.now cells.now partials.now)
        (question (of_picker is_finished)) }
{
    let mut rows = [0; 1536];
    let live = live_records(words);
    let lent = unpack(partials, live, &mut rows);
    is_finished_core(words, cells, &rows, lent)
}

fn is_seeding_core(words: &[u64], cells: &[u16], rows: &[u32], lent: usize) -> Result<bool, Refusal>
    requires { length rows.now ≡ 1536 }
    ensures { CoreAnswered words.now cells.now rows.now lent
        (of_picker is_seeding) (flag_answer result) }
{
    let mut counts = [0; 1536];
    let picker = admit_picker(words, cells, rows, lent, &mut counts)?;
    Ok(ask_progress::is_seeding(words, cells, rows, picker.live, picker.shape))
}

// Every piece is had.
pub fn is_seeding(
    words: &[u64],
    cells: &[u16],
    partials: &[DownloadingPiece],
) -> Result<bool, Refusal>
    ensures { flag_answer result ≡ answer_on (lending words.now cells.now partials.now)
        (question (of_picker is_seeding)) }
{
    let mut rows = [0; 1536];
    let live = live_records(words);
    let lent = unpack(partials, live, &mut rows);
    is_seeding_core(words, cells, &rows, lent)
}

fn num_want_left_core(
    words: &[u64],
    cells: &[u16],
    rows: &[u32],
    lent: usize,
) -> Result<u64, Refusal>
    requires { length rows.now ≡ 1536 }
    ensures { CoreAnswered words.now cells.now rows.now lent
        (of_picker num_want_left) (number_answer result) }
{
    let mut counts = [0; 1536];
    let picker = admit_picker(words, cells, rows, lent, &mut counts)?;
    Ok(ask_progress::num_want_left(words, cells, rows, picker.live, picker.shape))
}

// As the definition counts: pieces neither had nor filtered, and those that are both.
pub fn num_want_left(
    words: &[u64],
    cells: &[u16],
    partials: &[DownloadingPiece],
) -> Result<u64, Refusal>
    ensures { number_answer result ≡ answer_on (lending words.now cells.now partials.now)
        (question (of_picker num_want_left)) }
{
    let mut rows = [0; 1536];
    let live = live_records(words);
    let lent = unpack(partials, live, &mut rows);
    num_want_left_core(words, cells, &rows, lent)
}

fn get_download_queue_sizes_core(
    words: &[u64],
    cells: &[u16],
    rows: &[u32],
    lent: usize,
) -> Result<QueueSizes, Refusal>
    requires { length rows.now ≡ 1536 }
    ensures { CoreAnswered words.now cells.now rows.now lent
        (of_picker get_download_queue_sizes) (sizes_answer result) }
{
    let mut counts = [0; 1536];
    let picker = admit_picker(words, cells, rows, lent, &mut counts)?;
    Ok(ask_progress::get_download_queue_sizes(words, cells, rows, picker.live, picker.shape))
}

pub fn get_download_queue_sizes(
    words: &[u64],
    cells: &[u16],
    partials: &[DownloadingPiece],
) -> Result<QueueSizes, Refusal>
    ensures { sizes_answer result ≡ answer_on (lending words.now cells.now partials.now)
        (question (of_picker get_download_queue_sizes)) }
{
    let mut rows = [0; 1536];
    let live = live_records(words);
    let lent = unpack(partials, live, &mut rows);
    get_download_queue_sizes_core(words, cells, &rows, lent)
}
