// A number for each piece.
// Written by tools/exports.py, and not by hand.
ghost use Rattle.picker_lists.specs.Listing.{Listed, tell_numbers};
ghost use Rattle.model.specs.ask.Questions.{get_availability_vec, list_of_picker, piece_priorities};
ghost use Rattle.picker_calls.specs.Cores.{lending};
ghost use Rattle.std.specs.Prelude.{length};
ghost use Rattle.export_answers.specs.Replies.{of_list};
ghost use Rattle.export_answers.specs.Back.{list_in};
ghost use Rattle.export_walks.specs.Saying.{Says};

use export_answers::{Answered, of_list};
use memory_records::DownloadingPiece;
use picker_lists::{get_availability_vec, piece_priorities};

// The peers of each piece with the seeds.
#[unsafe(no_mangle)]
pub extern "C" fn pp_get_availability_vec(
    words: &[u64],
    cells: &[u16],
    partials: &[DownloadingPiece],
    out: &mut [u16],
) -> Answered
    ensures { Says of_list list_in (λ o. Listed 1 tell_numbers (lending words.now cells.now partials.now)
        (list_of_picker get_availability_vec (length out.old)) out.old out.new o) result }
{
    of_list(get_availability_vec(words, cells, partials, out))
}

#[unsafe(no_mangle)]
pub extern "C" fn pp_piece_priorities(
    words: &[u64],
    cells: &[u16],
    partials: &[DownloadingPiece],
    out: &mut [u16],
) -> Answered
    ensures { Says of_list list_in (λ o. Listed 1 tell_numbers (lending words.now cells.now partials.now)
        (list_of_picker piece_priorities (length out.old)) out.old out.new o) result }
{
    of_list(piece_priorities(words, cells, partials, out))
}
