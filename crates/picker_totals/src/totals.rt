// Pieces that pass a test, and their pad bytes.
// Written by tools/publics.py, and not by hand.
ghost use Rattle.std.specs.Prelude.{◌≡◌, length};
ghost use Rattle.model.specs.ask.Questions.{of_picker, num_pad_bytes, ask_num_have, ask_num_filtered, ask_num_have_filtered, want};
ghost use Rattle.model.specs.ask.Questions.{have_want, have, all_pieces};
ghost use Rattle.model.specs.Calls.{question};
ghost use Rattle.picker_calls.specs.Calling.{answer_on};
ghost use Rattle.picker_calls.specs.Cores.{lending};
ghost use Rattle.picker_answers.specs.Admitting.{CoreAnswered};
ghost use Rattle.picker_answers.specs.Answers.{number_answer};
ghost use Rattle.picker_totals.specs.Answers.{count_answer};

use ask_totals::PieceCount;
use memory_records::{DownloadingPiece, live_records, unpack};
use picker_answers::admit_picker;
use types::Refusal;

fn num_pad_bytes_core(
    words: &[u64],
    cells: &[u16],
    rows: &[u32],
    lent: usize,
) -> Result<u64, Refusal>
    requires { length rows.now ≡ 1536 }
    ensures { CoreAnswered words.now cells.now rows.now lent
        (of_picker num_pad_bytes) (number_answer result) }
{
    let mut counts = [0; 1536];
    let picker = admit_picker(words, cells, rows, lent, &mut counts)?;
    Ok(ask_totals::num_pad_bytes(words, cells, rows, picker.live, picker.shape))
}

// The pad bytes of all pieces.
pub fn num_pad_bytes(
    words: &[u64],
    cells: &[u16],
    partials: &[DownloadingPiece],
) -> Result<u64, Refusal>
    ensures { number_answer result ≡ answer_on (lending words.now cells.now partials.now)
        (question (of_picker num_pad_bytes)) }
{
    let mut rows = [0; 1536];
    let live = live_records(words);
    let lent = unpack(partials, live, &mut rows);
    num_pad_bytes_core(words, cells, &rows, lent)
}

fn num_have_core(words: &[u64], cells: &[u16], rows: &[u32], lent: usize) -> Result<u64, Refusal>
    requires { length rows.now ≡ 1536 }
    ensures { CoreAnswered words.now cells.now rows.now lent
        (of_picker ask_num_have) (number_answer result) }
{
    let mut counts = [0; 1536];
    let picker = admit_picker(words, cells, rows, lent, &mut counts)?;
    Ok(ask_totals::num_have(words, cells, rows, picker.live, picker.shape))
}

// Pieces that are flushed, or passed while still partials.
pub fn num_have(words: &[u64], cells: &[u16], partials: &[DownloadingPiece]) -> Result<u64, Refusal>
    ensures { number_answer result ≡ answer_on (lending words.now cells.now partials.now)
        (question (of_picker ask_num_have)) }
{
    let mut rows = [0; 1536];
    let live = live_records(words);
    let lent = unpack(partials, live, &mut rows);
    num_have_core(words, cells, &rows, lent)
}

fn num_filtered_core(
    words: &[u64],
    cells: &[u16],
    rows: &[u32],
    lent: usize,
) -> Result<u64, Refusal>
    requires { length rows.now ≡ 1536 }
    ensures { CoreAnswered words.now cells.now rows.now lent
        (of_picker ask_num_filtered) (number_answer result) }
{
    let mut counts = [0; 1536];
    let picker = admit_picker(words, cells, rows, lent, &mut counts)?;
    Ok(ask_totals::num_filtered(words, cells, rows, picker.live, picker.shape))
}

// Pieces of priority 0 that are not had.
pub fn num_filtered(
    words: &[u64],
    cells: &[u16],
    partials: &[DownloadingPiece],
) -> Result<u64, Refusal>
    ensures { number_answer result ≡ answer_on (lending words.now cells.now partials.now)
        (question (of_picker ask_num_filtered)) }
{
    let mut rows = [0; 1536];
    let live = live_records(words);
    let lent = unpack(partials, live, &mut rows);
    num_filtered_core(words, cells, &rows, lent)
}

fn num_have_filtered_core(
    words: &[u64],
    cells: &[u16],
    rows: &[u32],
    lent: usize,
) -> Result<u64, Refusal>
    requires { length rows.now ≡ 1536 }
    ensures { CoreAnswered words.now cells.now rows.now lent
        (of_picker ask_num_have_filtered) (number_answer result) }
{
    let mut counts = [0; 1536];
    let picker = admit_picker(words, cells, rows, lent, &mut counts)?;
    Ok(ask_totals::num_have_filtered(words, cells, rows, picker.live, picker.shape))
}

// Pieces of priority 0 that are.
pub fn num_have_filtered(
    words: &[u64],
    cells: &[u16],
    partials: &[DownloadingPiece],
) -> Result<u64, Refusal>
    ensures { number_answer result ≡ answer_on (lending words.now cells.now partials.now)
        (question (of_picker ask_num_have_filtered)) }
{
    let mut rows = [0; 1536];
    let live = live_records(words);
    let lent = unpack(partials, live, &mut rows);
    num_have_filtered_core(words, cells, &rows, lent)
}

fn want_core(words: &[u64], cells: &[u16], rows: &[u32], lent: usize) -> Result<PieceCount, Refusal>
    requires { length rows.now ≡ 1536 }
    ensures { CoreAnswered words.now cells.now rows.now lent
        (of_picker want) (count_answer result) }
{
    let mut counts = [0; 1536];
    let picker = admit_picker(words, cells, rows, lent, &mut counts)?;
    Ok(ask_totals::want(words, cells, rows, picker.live, picker.shape))
}

// Pieces that are not filtered.
pub fn want(
    words: &[u64],
    cells: &[u16],
    partials: &[DownloadingPiece],
) -> Result<PieceCount, Refusal>
    ensures { count_answer result ≡ answer_on (lending words.now cells.now partials.now)
        (question (of_picker want)) }
{
    let mut rows = [0; 1536];
    let live = live_records(words);
    let lent = unpack(partials, live, &mut rows);
    want_core(words, cells, &rows, lent)
}

fn have_want_core(
    words: &[u64],
    cells: &[u16],
    rows: &[u32],
    lent: usize,
) -> Result<PieceCount, Refusal>
    requires { length rows.now ≡ 1536 }
    ensures { CoreAnswered words.now cells.now rows.now lent
        (of_picker have_want) (count_answer result) }
{
    let mut counts = [0; 1536];
    let picker = admit_picker(words, cells, rows, lent, &mut counts)?;
    Ok(ask_totals::have_want(words, cells, rows, picker.live, picker.shape))
}

// Those of them that are had.
pub fn have_want(
    words: &[u64],
    cells: &[u16],
    partials: &[DownloadingPiece],
) -> Result<PieceCount, Refusal>
    ensures { count_answer result ≡ answer_on (lending words.now cells.now partials.now)
        (question (of_picker have_want)) }
{
    let mut rows = [0; 1536];
    let live = live_records(words);
    let lent = unpack(partials, live, &mut rows);
    have_want_core(words, cells, &rows, lent)
}

fn have_core(words: &[u64], cells: &[u16], rows: &[u32], lent: usize) -> Result<PieceCount, Refusal>
    requires { length rows.now ≡ 1536 }
    ensures { CoreAnswered words.now cells.now rows.now lent
        (of_picker have) (count_answer result) }
{
    let mut counts = [0; 1536];
    let picker = admit_picker(words, cells, rows, lent, &mut counts)?;
    Ok(ask_totals::have(words, cells, rows, picker.live, picker.shape))
}

// Pieces that are had.
pub fn have(
    words: &[u64],
    cells: &[u16],
    partials: &[DownloadingPiece],
) -> Result<PieceCount, Refusal>
    ensures { count_answer result ≡ answer_on (lending words.now cells.now partials.now)
        (question (of_picker have)) }
{
    let mut rows = [0; 1536];
    let live = live_records(words);
    let lent = unpack(partials, live, &mut rows);
    have_core(words, cells, &rows, lent)
}

fn all_pieces_core(
    words: &[u64],
    cells: &[u16],
    rows: &[u32],
    lent: usize,
) -> Result<PieceCount, Refusal>
    requires { length rows.now ≡ 1536 }
    ensures { CoreAnswered words.now cells.now rows.now lent
        (of_picker all_pieces) (count_answer result) }
{
    let mut counts = [0; 1536];
    let picker = admit_picker(words, cells, rows, lent, &mut counts)?;
    Ok(ask_totals::all_pieces(words, cells, rows, picker.live, picker.shape))
}

pub fn all_pieces(
    words: &[u64],
    cells: &[u16],
    partials: &[DownloadingPiece],
) -> Result<PieceCount, Refusal>
    ensures { count_answer result ≡ answer_on (lending words.now cells.now partials.now)
        (question (of_picker all_pieces)) }
{
    let mut rows = [0; 1536];
    let live = live_records(words);
    let lent = unpack(partials, live, &mut rows);
    all_pieces_core(words, cells, &rows, lent)
}
