// What the head and the geometry tell.
// Written by tools/publics.py, and not by hand.
ghost use Rattle.std.specs.Prelude.{◌≡◌, length};
ghost use Rattle.model.specs.ask.Questions.{of_picker, num_pieces, ask_blocks_per_piece, block_size, total_size, full_piece_size};
ghost use Rattle.model.specs.ask.Questions.{num_seeds, cursor?, reverse_cursor?, dirty?, get_download_queue_size};
ghost use Rattle.model.specs.Calls.{question};
ghost use Rattle.picker_calls.specs.Calling.{answer_on};
ghost use Rattle.picker_calls.specs.Cores.{lending};
ghost use Rattle.picker_answers.specs.Admitting.{CoreAnswered};
ghost use Rattle.picker_answers.specs.Answers.{number_answer, flag_answer};

use memory_records::{DownloadingPiece, live_records, unpack};
use picker_answers::admit_picker;
use types::{Refusal, usize_to_u64};

fn num_pieces_core(words: &[u64], cells: &[u16], rows: &[u32], lent: usize) -> Result<u64, Refusal>
    requires { length rows.now ≡ 1536 }
    ensures { CoreAnswered words.now cells.now rows.now lent
        (of_picker num_pieces) (number_answer result) }
{
    let mut counts = [0; 1536];
    let picker = admit_picker(words, cells, rows, lent, &mut counts)?;
    Ok(usize_to_u64(ask_picker::num_pieces(picker.shape)))
}

pub fn num_pieces(
    words: &[u64],
    cells: &[u16],
    partials: &[DownloadingPiece],
) -> Result<u64, Refusal>
    ensures { number_answer result ≡ answer_on (lending words.now cells.now partials.now)
        (question (of_picker num_pieces)) }
{
    let mut rows = [0; 1536];
    let live = live_records(words);
    let lent = unpack(partials, live, &mut rows);
    num_pieces_core(words, cells, &rows, lent)
}

fn blocks_per_piece_core(
    words: &[u64],
    cells: &[u16],
    rows: &[u32],
    lent: usize,
) -> Result<u64, Refusal>
    requires { length rows.now ≡ 1536 }
    ensures { CoreAnswered words.now cells.now rows.now lent
        (of_picker ask_blocks_per_piece) (number_answer result) }
{
    let mut counts = [0; 1536];
    let picker = admit_picker(words, cells, rows, lent, &mut counts)?;
    Ok(usize_to_u64(ask_picker::blocks_per_piece(picker.shape)))
}

pub fn blocks_per_piece(
    words: &[u64],
    cells: &[u16],
    partials: &[DownloadingPiece],
) -> Result<u64, Refusal>
    ensures { number_answer result ≡ answer_on (lending words.now cells.now partials.now)
        (question (of_picker ask_blocks_per_piece)) }
{
    let mut rows = [0; 1536];
    let live = live_records(words);
    let lent = unpack(partials, live, &mut rows);
    blocks_per_piece_core(words, cells, &rows, lent)
}

fn block_size_core(words: &[u64], cells: &[u16], rows: &[u32], lent: usize) -> Result<u64, Refusal>
    requires { length rows.now ≡ 1536 }
    ensures { CoreAnswered words.now cells.now rows.now lent
        (of_picker block_size) (number_answer result) }
{
    let mut counts = [0; 1536];
    let picker = admit_picker(words, cells, rows, lent, &mut counts)?;
    Ok(ask_picker::block_size(words, picker.shape))
}

pub fn block_size(
    words: &[u64],
    cells: &[u16],
    partials: &[DownloadingPiece],
) -> Result<u64, Refusal>
    ensures { number_answer result ≡ answer_on (lending words.now cells.now partials.now)
        (question (of_picker block_size)) }
{
    let mut rows = [0; 1536];
    let live = live_records(words);
    let lent = unpack(partials, live, &mut rows);
    block_size_core(words, cells, &rows, lent)
}

fn total_size_core(words: &[u64], cells: &[u16], rows: &[u32], lent: usize) -> Result<u64, Refusal>
    requires { length rows.now ≡ 1536 }
    ensures { CoreAnswered words.now cells.now rows.now lent
        (of_picker total_size) (number_answer result) }
{
    let mut counts = [0; 1536];
    let picker = admit_picker(words, cells, rows, lent, &mut counts)?;
    Ok(ask_picker::total_size(words, picker.shape))
}

pub fn total_size(
    words: &[u64],
    cells: &[u16],
    partials: &[DownloadingPiece],
) -> Result<u64, Refusal>
    ensures { number_answer result ≡ answer_on (lending words.now cells.now partials.now)
        (question (of_picker total_size)) }
{
    let mut rows = [0; 1536];
    let live = live_records(words);
    let lent = unpack(partials, live, &mut rows);
    total_size_core(words, cells, &rows, lent)
}

fn full_piece_size_core(
    words: &[u64],
    cells: &[u16],
    rows: &[u32],
    lent: usize,
) -> Result<u64, Refusal>
    requires { length rows.now ≡ 1536 }
    ensures { CoreAnswered words.now cells.now rows.now lent
        (of_picker full_piece_size) (number_answer result) }
{
    let mut counts = [0; 1536];
    let picker = admit_picker(words, cells, rows, lent, &mut counts)?;
    Ok(ask_picker::full_piece_size(words, picker.shape))
}

// The length of a whole piece.
pub fn full_piece_size(
    words: &[u64],
    cells: &[u16],
    partials: &[DownloadingPiece],
) -> Result<u64, Refusal>
    ensures { number_answer result ≡ answer_on (lending words.now cells.now partials.now)
        (question (of_picker full_piece_size)) }
{
    let mut rows = [0; 1536];
    let live = live_records(words);
    let lent = unpack(partials, live, &mut rows);
    full_piece_size_core(words, cells, &rows, lent)
}

fn num_seeds_core(words: &[u64], cells: &[u16], rows: &[u32], lent: usize) -> Result<u64, Refusal>
    requires { length rows.now ≡ 1536 }
    ensures { CoreAnswered words.now cells.now rows.now lent
        (of_picker num_seeds) (number_answer result) }
{
    let mut counts = [0; 1536];
    let picker = admit_picker(words, cells, rows, lent, &mut counts)?;
    Ok(ask_picker::num_seeds(words, picker.shape))
}

pub fn num_seeds(
    words: &[u64],
    cells: &[u16],
    partials: &[DownloadingPiece],
) -> Result<u64, Refusal>
    ensures { number_answer result ≡ answer_on (lending words.now cells.now partials.now)
        (question (of_picker num_seeds)) }
{
    let mut rows = [0; 1536];
    let live = live_records(words);
    let lent = unpack(partials, live, &mut rows);
    num_seeds_core(words, cells, &rows, lent)
}

fn cursor_core(words: &[u64], cells: &[u16], rows: &[u32], lent: usize) -> Result<u64, Refusal>
    requires { length rows.now ≡ 1536 }
    ensures { CoreAnswered words.now cells.now rows.now lent
        (of_picker cursor?) (number_answer result) }
{
    let mut counts = [0; 1536];
    let picker = admit_picker(words, cells, rows, lent, &mut counts)?;
    Ok(ask_picker::cursor(words, picker.shape))
}

pub fn cursor(words: &[u64], cells: &[u16], partials: &[DownloadingPiece]) -> Result<u64, Refusal>
    ensures { number_answer result ≡ answer_on (lending words.now cells.now partials.now)
        (question (of_picker cursor?)) }
{
    let mut rows = [0; 1536];
    let live = live_records(words);
    let lent = unpack(partials, live, &mut rows);
    cursor_core(words, cells, &rows, lent)
}

fn reverse_cursor_core(
    words: &[u64],
    cells: &[u16],
    rows: &[u32],
    lent: usize,
) -> Result<u64, Refusal>
    requires { length rows.now ≡ 1536 }
    ensures { CoreAnswered words.now cells.now rows.now lent
        (of_picker reverse_cursor?) (number_answer result) }
{
    let mut counts = [0; 1536];
    let picker = admit_picker(words, cells, rows, lent, &mut counts)?;
    Ok(ask_picker::reverse_cursor(words, picker.shape))
}

pub fn reverse_cursor(
    words: &[u64],
    cells: &[u16],
    partials: &[DownloadingPiece],
) -> Result<u64, Refusal>
    ensures { number_answer result ≡ answer_on (lending words.now cells.now partials.now)
        (question (of_picker reverse_cursor?)) }
{
    let mut rows = [0; 1536];
    let live = live_records(words);
    let lent = unpack(partials, live, &mut rows);
    reverse_cursor_core(words, cells, &rows, lent)
}

fn dirty_core(words: &[u64], cells: &[u16], rows: &[u32], lent: usize) -> Result<bool, Refusal>
    requires { length rows.now ≡ 1536 }
    ensures { CoreAnswered words.now cells.now rows.now lent
        (of_picker dirty?) (flag_answer result) }
{
    let mut counts = [0; 1536];
    let picker = admit_picker(words, cells, rows, lent, &mut counts)?;
    Ok(ask_picker::dirty(words, picker.shape))
}

// Whether the list has to be rebuilt.
pub fn dirty(words: &[u64], cells: &[u16], partials: &[DownloadingPiece]) -> Result<bool, Refusal>
    ensures { flag_answer result ≡ answer_on (lending words.now cells.now partials.now)
        (question (of_picker dirty?)) }
{
    let mut rows = [0; 1536];
    let live = live_records(words);
    let lent = unpack(partials, live, &mut rows);
    dirty_core(words, cells, &rows, lent)
}

fn get_download_queue_size_core(
    words: &[u64],
    cells: &[u16],
    rows: &[u32],
    lent: usize,
) -> Result<u64, Refusal>
    requires { length rows.now ≡ 1536 }
    ensures { CoreAnswered words.now cells.now rows.now lent
        (of_picker get_download_queue_size) (number_answer result) }
{
    let mut counts = [0; 1536];
    let picker = admit_picker(words, cells, rows, lent, &mut counts)?;
    Ok(usize_to_u64(ask_picker::get_download_queue_size(words, picker.shape)))
}

// How many partials stand.
pub fn get_download_queue_size(
    words: &[u64],
    cells: &[u16],
    partials: &[DownloadingPiece],
) -> Result<u64, Refusal>
    ensures { number_answer result ≡ answer_on (lending words.now cells.now partials.now)
        (question (of_picker get_download_queue_size)) }
{
    let mut rows = [0; 1536];
    let live = live_records(words);
    let lent = unpack(partials, live, &mut rows);
    get_download_queue_size_core(words, cells, &rows, lent)
}
