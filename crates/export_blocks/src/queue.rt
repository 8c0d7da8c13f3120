// The partials.
// Written by tools/exports.py, and not by hand.
ghost use Rattle.std.specs.Prelude.{◌/◌, length};
ghost use Rattle.picker_lists.specs.Listing.{Listed, tell_infos};
ghost use Rattle.model.specs.ask.Questions.{get_download_queue, list_of_picker};
ghost use Rattle.picker_calls.specs.Cores.{lending};
ghost use Rattle.export_answers.specs.Replies.{of_list};
ghost use Rattle.export_answers.specs.Back.{list_in};
ghost use Rattle.export_walks.specs.Saying.{Says};

use export_answers::{Answered, of_list};
use memory_records::DownloadingPiece;
use picker_lists::get_download_queue;

// Seven words a record: index, finished, passed_hash_check, writing, locked, requested, hashing.
#[unsafe(no_mangle)]
pub extern "C" fn pp_get_download_queue(
    words: &[u64],
    cells: &[u16],
    partials: &[DownloadingPiece],
    out: &mut [u64],
) -> Answered
    ensures { Says of_list list_in (λ o. Listed 7 tell_infos (lending words.now cells.now partials.now)
        (list_of_picker get_download_queue (length out.old / 7)) out.old out.new o) result }
{
    of_list(get_download_queue(words, cells, partials, out))
}
