// How many blocks of a piece are in each state.
// Written by tools/publics.py, and not by hand.
ghost use Rattle.std.specs.Prelude.{◌≡◌, length};
ghost use Rattle.types.specs.Piece.{number_of};
ghost use Rattle.model.specs.ask.Questions.{of_piece, piece_info, is_piece_finished};
ghost use Rattle.model.specs.Calls.{question};
ghost use Rattle.picker_calls.specs.Calling.{answer_on};
ghost use Rattle.picker_calls.specs.Cores.{lending};
ghost use Rattle.picker_answers.specs.Admitting.{CoreAnswered};
ghost use Rattle.picker_partial_questions.specs.Answers.{info_answer};
ghost use Rattle.picker_answers.specs.Answers.{flag_answer};

use ask_partial::PieceInfo;
use memory_records::{DownloadingPiece, live_records, unpack};
use picker_answers::admit_piece;
use types::{PieceIndex, Refusal};

fn piece_info_core(
    words: &[u64],
    cells: &[u16],
    rows: &[u32],
    lent: usize,
    piece: PieceIndex,
) -> Result<PieceInfo, Refusal>
    requires { length rows.now ≡ 1536 }
    ensures { CoreAnswered words.now cells.now rows.now lent
        (of_piece piece_info (number_of piece.0)) (info_answer result) }
{
    let mut counts = [0; 1536];
    let i = piece.number();
    let picker = admit_piece(words, cells, rows, lent, &mut counts, i)?;
    Ok(ask_partial::piece_info(words, cells, rows, picker.live, &counts, picker.shape, i))
}

pub fn piece_info(
    words: &[u64],
    cells: &[u16],
    partials: &[DownloadingPiece],
    piece: PieceIndex,
) -> Result<PieceInfo, Refusal>
    ensures { info_answer result ≡ answer_on (lending words.now cells.now partials.now)
        (question (of_piece piece_info (number_of piece.0))) }
{
    let mut rows = [0; 1536];
    let live = live_records(words);
    let lent = unpack(partials, live, &mut rows);
    piece_info_core(words, cells, &rows, lent, piece)
}

fn is_piece_finished_core(
    words: &[u64],
    cells: &[u16],
    rows: &[u32],
    lent: usize,
    piece: PieceIndex,
) -> Result<bool, Refusal>
    requires { length rows.now ≡ 1536 }
    ensures { CoreAnswered words.now cells.now rows.now lent
        (of_piece is_piece_finished (number_of piece.0)) (flag_answer result) }
{
    let mut counts = [0; 1536];
    let i = piece.number();
    let picker = admit_piece(words, cells, rows, lent, &mut counts, i)?;
    Ok(ask_partial::is_piece_finished(words, cells, rows, picker.live, &counts, picker.shape, i))
}

// Whether every block is being written or on disk.
pub fn is_piece_finished(
    words: &[u64],
    cells: &[u16],
    partials: &[DownloadingPiece],
    piece: PieceIndex,
) -> Result<bool, Refusal>
    ensures { flag_answer result ≡ answer_on (lending words.now cells.now partials.now)
        (question (of_piece is_piece_finished (number_of piece.0))) }
{
    let mut rows = [0; 1536];
    let live = live_records(words);
    let lent = unpack(partials, live, &mut rows);
    is_piece_finished_core(words, cells, &rows, lent, piece)
}
