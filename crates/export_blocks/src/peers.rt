// The peer of a block.
// Written by tools/exports.py, and not by hand.
ghost use Rattle.picker_calls.specs.Calling.{answer_on};
ghost use Rattle.model.specs.ask.Questions.{get_downloader, of_block, block_peer};
ghost use Rattle.picker_calls.specs.Cores.{lending};
ghost use Rattle.types.specs.Piece.{number_of};
ghost use Rattle.picker_block_questions.specs.Answers.{peer_answer};
ghost use Rattle.model.specs.Calls.{question};
ghost use Rattle.std.specs.Prelude.{◌≡◌};
ghost use Rattle.export_arguments.specs.Arguments.{block_of};
ghost use Rattle.export_answers.specs.Replies.{of_peer};
ghost use Rattle.export_answers.specs.Back.{peer_in};
ghost use Rattle.export_walks.specs.Saying.{Says};

use export_answers::{Answered, of_peer};
use export_arguments::BlockPlace;
use memory_records::DownloadingPiece;
use picker_block_questions::{block_peer, get_downloader};

// The peer of a block that is not free.
#[unsafe(no_mangle)]
pub extern "C" fn pp_get_downloader(
    words: &[u64],
    cells: &[u16],
    partials: &[DownloadingPiece],
    block: BlockPlace,
) -> Answered
    ensures { Says of_peer peer_in (λ o. peer_answer o ≡ answer_on (lending words.now cells.now partials.now)
        (question (of_block get_downloader (number_of (block_of block).piece_index.0) (number_of (block_of block).block_index)))) result }
{
    of_peer(get_downloader(words, cells, partials, export_arguments::block_of(block)))
}

#[unsafe(no_mangle)]
pub extern "C" fn pp_block_peer(
    words: &[u64],
    cells: &[u16],
    partials: &[DownloadingPiece],
    block: BlockPlace,
) -> Answered
    ensures { Says of_peer peer_in (λ o. peer_answer o ≡ answer_on (lending words.now cells.now partials.now)
        (question (of_block block_peer (number_of (block_of block).piece_index.0) (number_of (block_of block).block_index)))) result }
{
    of_peer(block_peer(words, cells, partials, export_arguments::block_of(block)))
}
