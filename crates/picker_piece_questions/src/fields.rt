// The fields of a piece.
// Written by tools/publics.py, and not by hand.
ghost use Rattle.std.specs.Prelude.{◌≡◌, length};
ghost use Rattle.types.specs.Piece.{number_of};
ghost use Rattle.model.specs.ask.Questions.{of_piece, pad_bytes_in_piece, peer_count, piece_priority, download_state, is_piece_flushed};
ghost use Rattle.model.specs.ask.Questions.{is_downloading};
ghost use Rattle.model.specs.Calls.{question};
ghost use Rattle.picker_calls.specs.Calling.{answer_on};
ghost use Rattle.picker_calls.specs.Cores.{lending};
ghost use Rattle.picker_answers.specs.Admitting.{CoreAnswered};
ghost use Rattle.picker_answers.specs.Answers.{number_answer, flag_answer};

use memory_records::{DownloadingPiece, live_records, unpack};
use picker_answers::admit_piece;
use types::{PieceIndex, Refusal, u16_to_u64};

fn pad_bytes_in_piece_core(
    words: &[u64],
    cells: &[u16],
    rows: &[u32],
    lent: usize,
    piece: PieceIndex,
) -> Result<u64, Refusal>
    requires { length rows.now ≡ 1536 }
    ensures { CoreAnswered words.now cells.now rows.now lent
        (of_piece pad_bytes_in_piece (number_of piece.0)) (number_answer result) }
{
    let mut counts = [0; 1536];
    let i = piece.number();
    let picker = admit_piece(words, cells, rows, lent, &mut counts, i)?;
    Ok(ask_piece::pad_bytes_in_piece(words, picker.shape, i))
}

pub fn pad_bytes_in_piece(
    words: &[u64],
    cells: &[u16],
    partials: &[DownloadingPiece],
    piece: PieceIndex,
) -> Result<u64, Refusal>
    ensures { number_answer result ≡ answer_on (lending words.now cells.now partials.now)
        (question (of_piece pad_bytes_in_piece (number_of piece.0))) }
{
    let mut rows = [0; 1536];
    let live = live_records(words);
    let lent = unpack(partials, live, &mut rows);
    pad_bytes_in_piece_core(words, cells, &rows, lent, piece)
}

fn peer_count_core(
    words: &[u64],
    cells: &[u16],
    rows: &[u32],
    lent: usize,
    piece: PieceIndex,
) -> Result<u64, Refusal>
    requires { length rows.now ≡ 1536 }
    ensures { CoreAnswered words.now cells.now rows.now lent
        (of_piece peer_count (number_of piece.0)) (number_answer result) }
{
    let mut counts = [0; 1536];
    let i = piece.number();
    let picker = admit_piece(words, cells, rows, lent, &mut counts, i)?;
    Ok(u16_to_u64(ask_piece::peer_count(cells, picker.shape, i)))
}

// The peers that have the piece, without the seeds.
pub fn peer_count(
    words: &[u64],
    cells: &[u16],
    partials: &[DownloadingPiece],
    piece: PieceIndex,
) -> Result<u64, Refusal>
    ensures { number_answer result ≡ answer_on (lending words.now cells.now partials.now)
        (question (of_piece peer_count (number_of piece.0))) }
{
    let mut rows = [0; 1536];
    let live = live_records(words);
    let lent = unpack(partials, live, &mut rows);
    peer_count_core(words, cells, &rows, lent, piece)
}

fn piece_priority_core(
    words: &[u64],
    cells: &[u16],
    rows: &[u32],
    lent: usize,
    piece: PieceIndex,
) -> Result<u64, Refusal>
    requires { length rows.now ≡ 1536 }
    ensures { CoreAnswered words.now cells.now rows.now lent
        (of_piece piece_priority (number_of piece.0)) (number_answer result) }
{
    let mut counts = [0; 1536];
    let i = piece.number();
    let picker = admit_piece(words, cells, rows, lent, &mut counts, i)?;
    Ok(u16_to_u64(ask_piece::piece_priority(cells, picker.shape, i)))
}

pub fn piece_priority(
    words: &[u64],
    cells: &[u16],
    partials: &[DownloadingPiece],
    piece: PieceIndex,
) -> Result<u64, Refusal>
    ensures { number_answer result ≡ answer_on (lending words.now cells.now partials.now)
        (question (of_piece piece_priority (number_of piece.0))) }
{
    let mut rows = [0; 1536];
    let live = live_records(words);
    let lent = unpack(partials, live, &mut rows);
    piece_priority_core(words, cells, &rows, lent, piece)
}

fn download_state_core(
    words: &[u64],
    cells: &[u16],
    rows: &[u32],
    lent: usize,
    piece: PieceIndex,
) -> Result<u64, Refusal>
    requires { length rows.now ≡ 1536 }
    ensures { CoreAnswered words.now cells.now rows.now lent
        (of_piece download_state (number_of piece.0)) (number_answer result) }
{
    let mut counts = [0; 1536];
    let i = piece.number();
    let picker = admit_piece(words, cells, rows, lent, &mut counts, i)?;
    Ok(u16_to_u64(ask_piece::download_state(cells, picker.shape, i)))
}

// The number of the piece's state.
pub fn download_state(
    words: &[u64],
    cells: &[u16],
    partials: &[DownloadingPiece],
    piece: PieceIndex,
) -> Result<u64, Refusal>
    ensures { number_answer result ≡ answer_on (lending words.now cells.now partials.now)
        (question (of_piece download_state (number_of piece.0))) }
{
    let mut rows = [0; 1536];
    let live = live_records(words);
    let lent = unpack(partials, live, &mut rows);
    download_state_core(words, cells, &rows, lent, piece)
}

fn is_piece_flushed_core(
    words: &[u64],
    cells: &[u16],
    rows: &[u32],
    lent: usize,
    piece: PieceIndex,
) -> Result<bool, Refusal>
    requires { length rows.now ≡ 1536 }
    ensures { CoreAnswered words.now cells.now rows.now lent
        (of_piece is_piece_flushed (number_of piece.0)) (flag_answer result) }
{
    let mut counts = [0; 1536];
    let i = piece.number();
    let picker = admit_piece(words, cells, rows, lent, &mut counts, i)?;
    Ok(ask_piece::is_piece_flushed(cells, picker.shape, i))
}

pub fn is_piece_flushed(
    words: &[u64],
    cells: &[u16],
    partials: &[DownloadingPiece],
    piece: PieceIndex,
) -> Result<bool, Refusal>
    ensures { flag_answer result ≡ answer_on (lending words.now cells.now partials.now)
        (question (of_piece is_piece_flushed (number_of piece.0))) }
{
    let mut rows = [0; 1536];
    let live = live_records(words);
    let lent = unpack(partials, live, &mut rows);
    is_piece_flushed_core(words, cells, &rows, lent, piece)
}

fn is_downloading_core(
    words: &[u64],
    cells: &[u16],
    rows: &[u32],
    lent: usize,
    piece: PieceIndex,
) -> Result<bool, Refusal>
    requires { length rows.now ≡ 1536 }
    ensures { CoreAnswered words.now cells.now rows.now lent
        (of_piece is_downloading (number_of piece.0)) (flag_answer result) }
{
    let mut counts = [0; 1536];
    let i = piece.number();
    let picker = admit_piece(words, cells, rows, lent, &mut counts, i)?;
    Ok(ask_piece::is_downloading(cells, picker.shape, i))
}

// Whether the piece is in a queue: in any state but Open.
pub fn is_downloading(
    words: &[u64],
    cells: &[u16],
    partials: &[DownloadingPiece],
    piece: PieceIndex,
) -> Result<bool, Refusal>
    ensures { flag_answer result ≡ answer_on (lending words.now cells.now partials.now)
        (question (of_piece is_downloading (number_of piece.0))) }
{
    let mut rows = [0; 1536];
    let live = live_records(words);
    let lent = unpack(partials, live, &mut rows);
    is_downloading_core(words, cells, &rows, lent, piece)
}
