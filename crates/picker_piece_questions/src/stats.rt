// How many have a piece, and its bucket.
// Written by tools/publics.py, and not by hand.
ghost use Rattle.std.specs.Prelude.{◌≡◌, length};
ghost use Rattle.types.specs.Piece.{number_of};
ghost use Rattle.model.specs.ask.Questions.{of_piece, get_availability, piece_stats};
ghost use Rattle.model.specs.Calls.{question};
ghost use Rattle.picker_calls.specs.Calling.{answer_on};
ghost use Rattle.picker_calls.specs.Cores.{lending};
ghost use Rattle.picker_answers.specs.Admitting.{CoreAnswered};
ghost use Rattle.picker_answers.specs.Answers.{number_answer};
ghost use Rattle.picker_piece_questions.specs.Answers.{stats_answer};

use ask_piece::PieceStats;
use memory_records::{DownloadingPiece, live_records, unpack};
use picker_answers::admit_piece;
use types::{PieceIndex, Refusal};

fn get_availability_core(
    words: &[u64],
    cells: &[u16],
    rows: &[u32],
    lent: usize,
    piece: PieceIndex,
) -> Result<u64, Refusal>
    requires { length rows.now ≡ 1536 }
    ensures { CoreAnswered words.now cells.now rows.now lent
        (of_piece get_availability (number_of piece.0)) (number_answer result) }
{
    let mut counts = [0; 1536];
    let i = piece.number();
    let picker = admit_piece(words, cells, rows, lent, &mut counts, i)?;
    Ok(ask_piece::get_availability(words, cells, picker.shape, i))
}

// Peers that have the piece, with the seeds.
pub fn get_availability(
    words: &[u64],
    cells: &[u16],
    partials: &[DownloadingPiece],
    piece: PieceIndex,
) -> Result<u64, Refusal>
    ensures { number_answer result ≡ answer_on (lending words.now cells.now partials.now)
        (question (of_piece get_availability (number_of piece.0))) }
{
    let mut rows = [0; 1536];
    let live = live_records(words);
    let lent = unpack(partials, live, &mut rows);
    get_availability_core(words, cells, &rows, lent, piece)
}

fn piece_stats_core(
    words: &[u64],
    cells: &[u16],
    rows: &[u32],
    lent: usize,
    piece: PieceIndex,
) -> Result<PieceStats, Refusal>
    requires { length rows.now ≡ 1536 }
    ensures { CoreAnswered words.now cells.now rows.now lent
        (of_piece piece_stats (number_of piece.0)) (stats_answer result) }
{
    let mut counts = [0; 1536];
    let i = piece.number();
    let picker = admit_piece(words, cells, rows, lent, &mut counts, i)?;
    Ok(ask_piece::piece_stats(words, cells, picker.shape, i))
}

pub fn piece_stats(
    words: &[u64],
    cells: &[u16],
    partials: &[DownloadingPiece],
    piece: PieceIndex,
) -> Result<PieceStats, Refusal>
    ensures { stats_answer result ≡ answer_on (lending words.now cells.now partials.now)
        (question (of_piece piece_stats (number_of piece.0))) }
{
    let mut rows = [0; 1536];
    let live = live_records(words);
    let lent = unpack(partials, live, &mut rows);
    piece_stats_core(words, cells, &rows, lent, piece)
}
