// The peer of a block.
// Written by tools/publics.py, and not by hand.
ghost use Rattle.std.specs.Prelude.{◌≡◌, length};
ghost use Rattle.types.specs.Piece.{number_of};
ghost use Rattle.model.specs.ask.Questions.{of_block, get_downloader, block_peer};
ghost use Rattle.model.specs.Calls.{question};
ghost use Rattle.picker_calls.specs.Calling.{answer_on};
ghost use Rattle.picker_calls.specs.Cores.{lending};
ghost use Rattle.picker_answers.specs.Admitting.{CoreAnswered};
ghost use Rattle.picker_block_questions.specs.Answers.{peer_answer};

use ask_block::PeerOf;
use memory_records::{DownloadingPiece, live_records, unpack};
use picker_answers::admit_block;
use types::{PieceBlock, Refusal, i32_to_usize};

fn get_downloader_core(
    words: &[u64],
    cells: &[u16],
    rows: &[u32],
    lent: usize,
    block: PieceBlock,
) -> Result<PeerOf, Refusal>
    requires { length rows.now ≡ 1536 }
    ensures { CoreAnswered words.now cells.now rows.now lent
        (of_block get_downloader (number_of block.piece_index.0) (number_of block.block_index)) (peer_answer result) }
{
    let mut counts = [0; 1536];
    let i = block.piece_index.number();
    let j = i32_to_usize(block.block_index);
    let picker = admit_block(words, cells, rows, lent, &mut counts, i, j)?;
    Ok(ask_block::get_downloader(words, cells, rows, picker.live, picker.shape, i, j))
}

// The peer of a block that is not free.
pub fn get_downloader(
    words: &[u64],
    cells: &[u16],
    partials: &[DownloadingPiece],
    block: PieceBlock,
) -> Result<PeerOf, Refusal>
    ensures { peer_answer result ≡ answer_on (lending words.now cells.now partials.now)
        (question (of_block get_downloader (number_of block.piece_index.0) (number_of block.block_index))) }
{
    let mut rows = [0; 1536];
    let live = live_records(words);
    let lent = unpack(partials, live, &mut rows);
    get_downloader_core(words, cells, &rows, lent, block)
}

fn block_peer_core(
    words: &[u64],
    cells: &[u16],
    rows: &[u32],
    lent: usize,
    block: PieceBlock,
) -> Result<PeerOf, Refusal>
    requires { length rows.now ≡ 1536 }
    ensures { CoreAnswered words.now cells.now rows.now lent
        (of_block block_peer (number_of block.piece_index.0) (number_of block.block_index)) (peer_answer result) }
{
    let mut counts = [0; 1536];
    let i = block.piece_index.number();
    let j = i32_to_usize(block.block_index);
    let picker = admit_block(words, cells, rows, lent, &mut counts, i, j)?;
    Ok(ask_block::block_peer(words, cells, rows, picker.live, picker.shape, i, j))
}

pub fn block_peer(
    words: &[u64],
    cells: &[u16],
    partials: &[DownloadingPiece],
    block: PieceBlock,
) -> Result<PeerOf, Refusal>
    ensures { peer_answer result ≡ answer_on (lending words.now cells.now partials.now)
        (question (of_block block_peer (number_of block.piece_index.0) (number_of block.block_index))) }
{
    let mut rows = [0; 1536];
    let live = live_records(words);
    let lent = unpack(partials, live, &mut rows);
    block_peer_core(words, cells, &rows, lent, block)
}
