// The flags of a piece's partial.
// Written by tools/publics.py, and not by hand.
ghost use Rattle.std.specs.Prelude.{◌≡◌, length};
ghost use Rattle.types.specs.Piece.{number_of};
ghost use Rattle.model.specs.ask.Questions.{of_piece, passed_hash_check, locked?, hashing?, is_hashing, ask_have_piece};
ghost use Rattle.model.specs.Calls.{question};
ghost use Rattle.picker_calls.specs.Calling.{answer_on};
ghost use Rattle.picker_calls.specs.Cores.{lending};
ghost use Rattle.picker_answers.specs.Admitting.{CoreAnswered};
ghost use Rattle.picker_partial_questions.specs.Answers.{partial_flag_answer};
ghost use Rattle.picker_answers.specs.Answers.{flag_answer};

use memory_records::{DownloadingPiece, live_records, unpack};
use picker_answers::admit_piece;
use types::{PieceIndex, Refusal};

fn passed_hash_check_core(
    words: &[u64],
    cells: &[u16],
    rows: &[u32],
    lent: usize,
    piece: PieceIndex,
) -> Result<Option<bool>, Refusal>
    requires { length rows.now ≡ 1536 }
    ensures { CoreAnswered words.now cells.now rows.now lent
        (of_piece passed_hash_check (number_of piece.0)) (partial_flag_answer result) }
{
    let mut counts = [0; 1536];
    let i = piece.number();
    let picker = admit_piece(words, cells, rows, lent, &mut counts, i)?;
    Ok(ask_partial::passed_hash_check(rows, picker.live, i))
}

pub fn passed_hash_check(
    words: &[u64],
    cells: &[u16],
    partials: &[DownloadingPiece],
    piece: PieceIndex,
) -> Result<Option<bool>, Refusal>
    ensures { partial_flag_answer result ≡ answer_on (lending words.now cells.now partials.now)
        (question (of_piece passed_hash_check (number_of piece.0))) }
{
    let mut rows = [0; 1536];
    let live = live_records(words);
    let lent = unpack(partials, live, &mut rows);
    passed_hash_check_core(words, cells, &rows, lent, piece)
}

fn locked_core(
    words: &[u64],
    cells: &[u16],
    rows: &[u32],
    lent: usize,
    piece: PieceIndex,
) -> Result<Option<bool>, Refusal>
    requires { length rows.now ≡ 1536 }
    ensures { CoreAnswered words.now cells.now rows.now lent
        (of_piece locked? (number_of piece.0)) (partial_flag_answer result) }
{
    let mut counts = [0; 1536];
    let i = piece.number();
    let picker = admit_piece(words, cells, rows, lent, &mut counts, i)?;
    Ok(ask_partial::locked(rows, picker.live, i))
}

pub fn locked(
    words: &[u64],
    cells: &[u16],
    partials: &[DownloadingPiece],
    piece: PieceIndex,
) -> Result<Option<bool>, Refusal>
    ensures { partial_flag_answer result ≡ answer_on (lending words.now cells.now partials.now)
        (question (of_piece locked? (number_of piece.0))) }
{
    let mut rows = [0; 1536];
    let live = live_records(words);
    let lent = unpack(partials, live, &mut rows);
    locked_core(words, cells, &rows, lent, piece)
}

fn hashing_core(
    words: &[u64],
    cells: &[u16],
    rows: &[u32],
    lent: usize,
    piece: PieceIndex,
) -> Result<Option<bool>, Refusal>
    requires { length rows.now ≡ 1536 }
    ensures { CoreAnswered words.now cells.now rows.now lent
        (of_piece hashing? (number_of piece.0)) (partial_flag_answer result) }
{
    let mut counts = [0; 1536];
    let i = piece.number();
    let picker = admit_piece(words, cells, rows, lent, &mut counts, i)?;
    Ok(ask_partial::hashing(rows, picker.live, i))
}

pub fn hashing(
    words: &[u64],
    cells: &[u16],
    partials: &[DownloadingPiece],
    piece: PieceIndex,
) -> Result<Option<bool>, Refusal>
    ensures { partial_flag_answer result ≡ answer_on (lending words.now cells.now partials.now)
        (question (of_piece hashing? (number_of piece.0))) }
{
    let mut rows = [0; 1536];
    let live = live_records(words);
    let lent = unpack(partials, live, &mut rows);
    hashing_core(words, cells, &rows, lent, piece)
}

fn is_hashing_core(
    words: &[u64],
    cells: &[u16],
    rows: &[u32],
    lent: usize,
    piece: PieceIndex,
) -> Result<bool, Refusal>
    requires { length rows.now ≡ 1536 }
    ensures { CoreAnswered words.now cells.now rows.now lent
        (of_piece is_hashing (number_of piece.0)) (flag_answer result) }
{
    let mut counts = [0; 1536];
    let i = piece.number();
    let picker = admit_piece(words, cells, rows, lent, &mut counts, i)?;
    Ok(ask_partial::is_hashing(rows, picker.live, i))
}

// Whether a partial stands that is being hashed.
pub fn is_hashing(
    words: &[u64],
    cells: &[u16],
    partials: &[DownloadingPiece],
    piece: PieceIndex,
) -> Result<bool, Refusal>
    ensures { flag_answer result ≡ answer_on (lending words.now cells.now partials.now)
        (question (of_piece is_hashing (number_of piece.0))) }
{
    let mut rows = [0; 1536];
    let live = live_records(words);
    let lent = unpack(partials, live, &mut rows);
    is_hashing_core(words, cells, &rows, lent, piece)
}

fn have_piece_core(
    words: &[u64],
    cells: &[u16],
    rows: &[u32],
    lent: usize,
    piece: PieceIndex,
) -> Result<bool, Refusal>
    requires { length rows.now ≡ 1536 }
    ensures { CoreAnswered words.now cells.now rows.now lent
        (of_piece ask_have_piece (number_of piece.0)) (flag_answer result) }
{
    let mut counts = [0; 1536];
    let i = piece.number();
    let picker = admit_piece(words, cells, rows, lent, &mut counts, i)?;
    Ok(ask_partial::have_piece(cells, rows, picker.live, picker.shape, i))
}

// Whether the piece is flushed, or passed while still a partial.
pub fn have_piece(
    words: &[u64],
    cells: &[u16],
    partials: &[DownloadingPiece],
    piece: PieceIndex,
) -> Result<bool, Refusal>
    ensures { flag_answer result ≡ answer_on (lending words.now cells.now partials.now)
        (question (of_piece ask_have_piece (number_of piece.0))) }
{
    let mut rows = [0; 1536];
    let live = live_records(words);
    let lent = unpack(partials, live, &mut rows);
    have_piece_core(words, cells, &rows, lent, piece)
}
