// How long a piece is, in bytes and in blocks.
// Written by tools/publics.py, and not by hand.
ghost use Rattle.std.specs.Prelude.{◌≡◌, length};
ghost use Rattle.types.specs.Piece.{number_of};
ghost use Rattle.model.specs.ask.Questions.{of_piece, piece_size, ask_blocks_in_piece, ask_payload_blocks_in_piece};
ghost use Rattle.model.specs.Calls.{question};
ghost use Rattle.picker_calls.specs.Calling.{answer_on};
ghost use Rattle.picker_calls.specs.Cores.{lending};
ghost use Rattle.picker_answers.specs.Admitting.{CoreAnswered};
ghost use Rattle.picker_answers.specs.Answers.{number_answer};

use memory_records::{DownloadingPiece, live_records, unpack};
use picker_answers::admit_piece;
use types::{PieceIndex, Refusal};

fn piece_size_core(
    words: &[u64],
    cells: &[u16],
    rows: &[u32],
    lent: usize,
    piece: PieceIndex,
) -> Result<u64, Refusal>
    requires { length rows.now ≡ 1536 }
    ensures { CoreAnswered words.now cells.now rows.now lent
        (of_piece piece_size (number_of piece.0)) (number_answer result) }
{
    let mut counts = [0; 1536];
    let i = piece.number();
    let picker = admit_piece(words, cells, rows, lent, &mut counts, i)?;
    Ok(ask_piece::piece_size(words, picker.shape, i))
}

pub fn piece_size(
    words: &[u64],
    cells: &[u16],
    partials: &[DownloadingPiece],
    piece: PieceIndex,
) -> Result<u64, Refusal>
    ensures { number_answer result ≡ answer_on (lending words.now cells.now partials.now)
        (question (of_piece piece_size (number_of piece.0))) }
{
    let mut rows = [0; 1536];
    let live = live_records(words);
    let lent = unpack(partials, live, &mut rows);
    piece_size_core(words, cells, &rows, lent, piece)
}

fn blocks_in_piece_core(
    words: &[u64],
    cells: &[u16],
    rows: &[u32],
    lent: usize,
    piece: PieceIndex,
) -> Result<u64, Refusal>
    requires { length rows.now ≡ 1536 }
    ensures { CoreAnswered words.now cells.now rows.now lent
        (of_piece ask_blocks_in_piece (number_of piece.0)) (number_answer result) }
{
    let mut counts = [0; 1536];
    let i = piece.number();
    let picker = admit_piece(words, cells, rows, lent, &mut counts, i)?;
    Ok(ask_piece::blocks_in_piece(words, picker.shape, i))
}

pub fn blocks_in_piece(
    words: &[u64],
    cells: &[u16],
    partials: &[DownloadingPiece],
    piece: PieceIndex,
) -> Result<u64, Refusal>
    ensures { number_answer result ≡ answer_on (lending words.now cells.now partials.now)
        (question (of_piece ask_blocks_in_piece (number_of piece.0))) }
{
    let mut rows = [0; 1536];
    let live = live_records(words);
    let lent = unpack(partials, live, &mut rows);
    blocks_in_piece_core(words, cells, &rows, lent, piece)
}

fn payload_blocks_in_piece_core(
    words: &[u64],
    cells: &[u16],
    rows: &[u32],
    lent: usize,
    piece: PieceIndex,
) -> Result<u64, Refusal>
    requires { length rows.now ≡ 1536 }
    ensures { CoreAnswered words.now cells.now rows.now lent
        (of_piece ask_payload_blocks_in_piece (number_of piece.0)) (number_answer result) }
{
    let mut counts = [0; 1536];
    let i = piece.number();
    let picker = admit_piece(words, cells, rows, lent, &mut counts, i)?;
    Ok(ask_piece::payload_blocks_in_piece(words, picker.shape, i))
}

// The blocks without those that pad bytes fill whole.
pub fn payload_blocks_in_piece(
    words: &[u64],
    cells: &[u16],
    partials: &[DownloadingPiece],
    piece: PieceIndex,
) -> Result<u64, Refusal>
    ensures { number_answer result ≡ answer_on (lending words.now cells.now partials.now)
        (question (of_piece ask_payload_blocks_in_piece (number_of piece.0))) }
{
    let mut rows = [0; 1536];
    let live = live_records(words);
    let lent = unpack(partials, live, &mut rows);
    payload_blocks_in_piece_core(words, cells, &rows, lent, piece)
}
