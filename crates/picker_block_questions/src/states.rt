// The state of a block, and how many asked for it.
// Written by tools/publics.py, and not by hand.
ghost use Rattle.std.specs.Prelude.{◌≡◌, length};
ghost use Rattle.types.specs.Piece.{number_of};
ghost use Rattle.model.specs.ask.Questions.{of_block, num_peers_block, is_requested, is_downloaded, is_finished_block, block_state};
ghost use Rattle.model.specs.ask.Questions.{block_num_peers};
ghost use Rattle.model.specs.Calls.{question};
ghost use Rattle.picker_calls.specs.Calling.{answer_on};
ghost use Rattle.picker_calls.specs.Cores.{lending};
ghost use Rattle.picker_answers.specs.Admitting.{CoreAnswered};
ghost use Rattle.picker_answers.specs.Answers.{number_answer, flag_answer};
ghost use Rattle.picker_block_questions.specs.Answers.{block_number_answer};

use memory_records::{DownloadingPiece, live_records, unpack};
use picker_answers::admit_block;
use types::{PieceBlock, Refusal, i32_to_usize, u16_to_u64};

fn num_peers_block_core(
    words: &[u64],
    cells: &[u16],
    rows: &[u32],
    lent: usize,
    block: PieceBlock,
) -> Result<u64, Refusal>
    requires { length rows.now ≡ 1536 }
    ensures { CoreAnswered words.now cells.now rows.now lent
        (of_block num_peers_block (number_of block.piece_index.0) (number_of block.block_index)) (number_answer result) }
{
    let mut counts = [0; 1536];
    let i = block.piece_index.number();
    let j = i32_to_usize(block.block_index);
    let picker = admit_block(words, cells, rows, lent, &mut counts, i, j)?;
    Ok(u16_to_u64(ask_block::num_peers_block(words, cells, rows, picker.live, picker.shape, i, j)))
}

// How many asked for the block: none where no partial stands.
pub fn num_peers_block(
    words: &[u64],
    cells: &[u16],
    partials: &[DownloadingPiece],
    block: PieceBlock,
) -> Result<u64, Refusal>
    ensures { number_answer result ≡ answer_on (lending words.now cells.now partials.now)
        (question (of_block num_peers_block (number_of block.piece_index.0) (number_of block.block_index))) }
{
    let mut rows = [0; 1536];
    let live = live_records(words);
    let lent = unpack(partials, live, &mut rows);
    num_peers_block_core(words, cells, &rows, lent, block)
}

fn is_requested_core(
    words: &[u64],
    cells: &[u16],
    rows: &[u32],
    lent: usize,
    block: PieceBlock,
) -> Result<bool, Refusal>
    requires { length rows.now ≡ 1536 }
    ensures { CoreAnswered words.now cells.now rows.now lent
        (of_block is_requested (number_of block.piece_index.0) (number_of block.block_index)) (flag_answer result) }
{
    let mut counts = [0; 1536];
    let i = block.piece_index.number();
    let j = i32_to_usize(block.block_index);
    let picker = admit_block(words, cells, rows, lent, &mut counts, i, j)?;
    Ok(ask_block::is_requested(words, cells, rows, picker.live, picker.shape, i, j))
}

pub fn is_requested(
    words: &[u64],
    cells: &[u16],
    partials: &[DownloadingPiece],
    block: PieceBlock,
) -> Result<bool, Refusal>
    ensures { flag_answer result ≡ answer_on (lending words.now cells.now partials.now)
        (question (of_block is_requested (number_of block.piece_index.0) (number_of block.block_index))) }
{
    let mut rows = [0; 1536];
    let live = live_records(words);
    let lent = unpack(partials, live, &mut rows);
    is_requested_core(words, cells, &rows, lent, block)
}

fn is_downloaded_core(
    words: &[u64],
    cells: &[u16],
    rows: &[u32],
    lent: usize,
    block: PieceBlock,
) -> Result<bool, Refusal>
    requires { length rows.now ≡ 1536 }
    ensures { CoreAnswered words.now cells.now rows.now lent
        (of_block is_downloaded (number_of block.piece_index.0) (number_of block.block_index)) (flag_answer result) }
{
    let mut counts = [0; 1536];
    let i = block.piece_index.number();
    let j = i32_to_usize(block.block_index);
    let picker = admit_block(words, cells, rows, lent, &mut counts, i, j)?;
    Ok(ask_block::is_downloaded(words, cells, rows, picker.live, picker.shape, i, j))
}

// Whether the piece is flushed, or the block is being written or on disk.
pub fn is_downloaded(
    words: &[u64],
    cells: &[u16],
    partials: &[DownloadingPiece],
    block: PieceBlock,
) -> Result<bool, Refusal>
    ensures { flag_answer result ≡ answer_on (lending words.now cells.now partials.now)
        (question (of_block is_downloaded (number_of block.piece_index.0) (number_of block.block_index))) }
{
    let mut rows = [0; 1536];
    let live = live_records(words);
    let lent = unpack(partials, live, &mut rows);
    is_downloaded_core(words, cells, &rows, lent, block)
}

fn is_finished_block_core(
    words: &[u64],
    cells: &[u16],
    rows: &[u32],
    lent: usize,
    block: PieceBlock,
) -> Result<bool, Refusal>
    requires { length rows.now ≡ 1536 }
    ensures { CoreAnswered words.now cells.now rows.now lent
        (of_block is_finished_block (number_of block.piece_index.0) (number_of block.block_index)) (flag_answer result) }
{
    let mut counts = [0; 1536];
    let i = block.piece_index.number();
    let j = i32_to_usize(block.block_index);
    let picker = admit_block(words, cells, rows, lent, &mut counts, i, j)?;
    Ok(ask_block::is_finished_block(words, cells, rows, picker.live, picker.shape, i, j))
}

// Whether the piece is flushed, or the block is on disk.
pub fn is_finished_block(
    words: &[u64],
    cells: &[u16],
    partials: &[DownloadingPiece],
    block: PieceBlock,
) -> Result<bool, Refusal>
    ensures { flag_answer result ≡ answer_on (lending words.now cells.now partials.now)
        (question (of_block is_finished_block (number_of block.piece_index.0) (number_of block.block_index))) }
{
    let mut rows = [0; 1536];
    let live = live_records(words);
    let lent = unpack(partials, live, &mut rows);
    is_finished_block_core(words, cells, &rows, lent, block)
}

fn block_state_core(
    words: &[u64],
    cells: &[u16],
    rows: &[u32],
    lent: usize,
    block: PieceBlock,
) -> Result<Option<u16>, Refusal>
    requires { length rows.now ≡ 1536 }
    ensures { CoreAnswered words.now cells.now rows.now lent
        (of_block block_state (number_of block.piece_index.0) (number_of block.block_index)) (block_number_answer result) }
{
    let mut counts = [0; 1536];
    let i = block.piece_index.number();
    let j = i32_to_usize(block.block_index);
    let picker = admit_block(words, cells, rows, lent, &mut counts, i, j)?;
    Ok(ask_block::block_state(words, cells, rows, picker.live, picker.shape, i, j))
}

// The number of the block's state.
pub fn block_state(
    words: &[u64],
    cells: &[u16],
    partials: &[DownloadingPiece],
    block: PieceBlock,
) -> Result<Option<u16>, Refusal>
    ensures { block_number_answer result ≡ answer_on (lending words.now cells.now partials.now)
        (question (of_block block_state (number_of block.piece_index.0) (number_of block.block_index))) }
{
    let mut rows = [0; 1536];
    let live = live_records(words);
    let lent = unpack(partials, live, &mut rows);
    block_state_core(words, cells, &rows, lent, block)
}

fn block_num_peers_core(
    words: &[u64],
    cells: &[u16],
    rows: &[u32],
    lent: usize,
    block: PieceBlock,
) -> Result<Option<u16>, Refusal>
    requires { length rows.now ≡ 1536 }
    ensures { CoreAnswered words.now cells.now rows.now lent
        (of_block block_num_peers (number_of block.piece_index.0) (number_of block.block_index)) (block_number_answer result) }
{
    let mut counts = [0; 1536];
    let i = block.piece_index.number();
    let j = i32_to_usize(block.block_index);
    let picker = admit_block(words, cells, rows, lent, &mut counts, i, j)?;
    Ok(ask_block::block_num_peers(words, cells, rows, picker.live, picker.shape, i, j))
}

pub fn block_num_peers(
    words: &[u64],
    cells: &[u16],
    partials: &[DownloadingPiece],
    block: PieceBlock,
) -> Result<Option<u16>, Refusal>
    ensures { block_number_answer result ≡ answer_on (lending words.now cells.now partials.now)
        (question (of_block block_num_peers (number_of block.piece_index.0) (number_of block.block_index))) }
{
    let mut rows = [0; 1536];
    let live = live_records(words);
    let lent = unpack(partials, live, &mut rows);
    block_num_peers_core(words, cells, &rows, lent, block)
}
