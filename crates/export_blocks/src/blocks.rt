// The blocks of a piece.
// Written by tools/exports.py, and not by hand.
ghost use Rattle.std.specs.Prelude.{◌/◌, length};
ghost use Rattle.picker_lists.specs.Listing.{Listed, tell_peers, tell_blocks};
ghost use Rattle.model.specs.ask.Questions.{get_downloaders, list_of_piece, blocks_for_piece};
ghost use Rattle.picker_calls.specs.Cores.{lending};
ghost use Rattle.types.specs.Piece.{number_of};
ghost use Rattle.export_arguments.specs.Arguments.{piece_of};
ghost use Rattle.export_answers.specs.Replies.{of_list};
ghost use Rattle.export_answers.specs.Back.{list_in};
ghost use Rattle.export_walks.specs.Saying.{Says};

use export_answers::{Answered, of_list};
use memory_records::DownloadingPiece;
use picker_lists::{blocks_for_piece, get_downloaders};

// Two words a record: whether there is a peer, and the peer.
#[unsafe(no_mangle)]
pub extern "C" fn pp_get_downloaders(
    words: &[u64],
    cells: &[u16],
    partials: &[DownloadingPiece],
    out: &mut [u64],
    piece: i32,
) -> Answered
    ensures { Says of_list list_in (λ o. Listed 2 tell_peers (lending words.now cells.now partials.now)
        (list_of_piece get_downloaders (number_of (piece_of piece).0) (length out.old / 2)) out.old out.new o) result }
{
    of_list(get_downloaders(words, cells, partials, out, export_arguments::piece(piece)))
}

// Four words a record: state, num_peers, whether there is a peer, and the peer. Nothing where no partial stands.
#[unsafe(no_mangle)]
pub extern "C" fn pp_blocks_for_piece(
    words: &[u64],
    cells: &[u16],
    partials: &[DownloadingPiece],
    out: &mut [u64],
    piece: i32,
) -> Answered
    ensures { Says of_list list_in (λ o. Listed 4 tell_blocks (lending words.now cells.now partials.now)
        (list_of_piece blocks_for_piece (number_of (piece_of piece).0) (length out.old / 4)) out.old out.new o) result }
{
    of_list(blocks_for_piece(words, cells, partials, out, export_arguments::piece(piece)))
}
