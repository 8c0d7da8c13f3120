// The state of a block.
// Written by tools/exports.py, and not by hand.
ghost use Rattle.picker_calls.specs.Calling.{answer_on};
ghost use Rattle.picker_calls.specs.Cores.{lending};
ghost use Rattle.model.specs.ask.Questions.{num_peers_block, of_block, is_requested, is_downloaded, is_finished_block, block_state};
ghost use Rattle.model.specs.ask.Questions.{block_num_peers};
ghost use Rattle.picker_answers.specs.Answers.{number_answer, flag_answer};
ghost use Rattle.types.specs.Piece.{number_of};
ghost use Rattle.model.specs.Calls.{question};
ghost use Rattle.std.specs.Prelude.{◌≡◌};
ghost use Rattle.picker_block_questions.specs.Answers.{block_number_answer};
ghost use Rattle.export_arguments.specs.Arguments.{block_of};
ghost use Rattle.export_answers.specs.Replies.{of_block_number, of_flag, of_number};
ghost use Rattle.export_answers.specs.Back.{block_number_in, flag_in, number_in};
ghost use Rattle.export_walks.specs.Saying.{Says};

use export_answers::{Answered, of_block_number, of_flag, of_number};
use export_arguments::BlockPlace;
use memory_records::DownloadingPiece;
use picker_block_questions::{
    block_num_peers, block_state, is_downloaded, is_finished_block, is_requested, num_peers_block,
};

// How many asked for the block: none where no partial stands.
#[unsafe(no_mangle)]
pub extern "C" fn pp_num_peers_block(
    words: &[u64],
    cells: &[u16],
    partials: &[DownloadingPiece],
    block: BlockPlace,
) -> Answered
    ensures { Says of_number number_in (λ o. number_answer o ≡ answer_on (lending words.now cells.now partials.now)
        (question (of_block num_peers_block (number_of (block_of block).piece_index.0) (number_of (block_of block).block_index)))) result }
{
    of_number(num_peers_block(words, cells, partials, export_arguments::block_of(block)))
}

#[unsafe(no_mangle)]
pub extern "C" fn pp_is_requested(
    words: &[u64],
    cells: &[u16],
    partials: &[DownloadingPiece],
    block: BlockPlace,
) -> Answered
    ensures { Says of_flag flag_in (λ o. flag_answer o ≡ answer_on (lending words.now cells.now partials.now)
        (question (of_block is_requested (number_of (block_of block).piece_index.0) (number_of (block_of block).block_index)))) result }
{
    of_flag(is_requested(words, cells, partials, export_arguments::block_of(block)))
}

// Whether the piece is flushed, or the block is being written or on disk.
#[unsafe(no_mangle)]
pub extern "C" fn pp_is_downloaded(
    words: &[u64],
    cells: &[u16],
    partials: &[DownloadingPiece],
    block: BlockPlace,
) -> Answered
    ensures { Says of_flag flag_in (λ o. flag_answer o ≡ answer_on (lending words.now cells.now partials.now)
        (question (of_block is_downloaded (number_of (block_of block).piece_index.0) (number_of (block_of block).block_index)))) result }
{
    of_flag(is_downloaded(words, cells, partials, export_arguments::block_of(block)))
}

// Whether the piece is flushed, or the block is on disk.
#[unsafe(no_mangle)]
pub extern "C" fn pp_is_finished_block(
    words: &[u64],
    cells: &[u16],
    partials: &[DownloadingPiece],
    block: BlockPlace,
) -> Answered
    ensures { Says of_flag flag_in (λ o. flag_answer o ≡ answer_on (lending words.now cells.now partials.now)
        (question (of_block is_finished_block (number_of (block_of block).piece_index.0) (number_of (block_of block).block_index)))) result }
{
    of_flag(is_finished_block(words, cells, partials, export_arguments::block_of(block)))
}

// The number of the block's state.
#[unsafe(no_mangle)]
pub extern "C" fn pp_block_state(
    words: &[u64],
    cells: &[u16],
    partials: &[DownloadingPiece],
    block: BlockPlace,
) -> Answered
    ensures { Says of_block_number block_number_in (λ o. block_number_answer o
        ≡ answer_on (lending words.now cells.now partials.now) (question
        (of_block block_state (number_of (block_of block).piece_index.0) (number_of (block_of block).block_index)))) result }
{
    of_block_number(block_state(words, cells, partials, export_arguments::block_of(block)))
}

#[unsafe(no_mangle)]
pub extern "C" fn pp_block_num_peers(
    words: &[u64],
    cells: &[u16],
    partials: &[DownloadingPiece],
    block: BlockPlace,
) -> Answered
    ensures { Says of_block_number block_number_in (λ o. block_number_answer o
        ≡ answer_on (lending words.now cells.now partials.now) (question
        (of_block block_num_peers (number_of (block_of block).piece_index.0) (number_of (block_of block).block_index)))) result }
{
    of_block_number(block_num_peers(words, cells, partials, export_arguments::block_of(block)))
}
