// The partials of the four queues.
ghost use Rattle.std.specs.Prelude.{◌≡◌, ◌/◌, length};
ghost use Rattle.model.specs.ask.Questions.{list_of_picker, get_download_queue};
ghost use Rattle.picker_calls.specs.Cores.{lending};
ghost use Rattle.picker_lists.specs.Listing.{tell_infos, Listed, CoreListed};

use crate::admitted::admit_list;
use crate::rooms::Need;
use memory_records::{DownloadingPiece, live_records, unpack};
use types::Refusal;

fn get_download_queue_core(
    words: &[u64],
    cells: &[u16],
    rows: &[u32],
    lent: usize,
    out: &mut [u64],
) -> Result<Option<usize>, Refusal>
    requires { length rows.now ≡ 1536 }
    ensures { CoreListed 7 tell_infos words.now cells.now rows.now lent
        (list_of_picker get_download_queue (length out.old / 7)) out.old out.new result }
{
    let mut counts = [0; 1536];
    let room = out.len() / 7;
    let picker = admit_list(words, cells, rows, lent, &mut counts, Need::Partials, room)?;
    Ok(Some(ask_queue::get_download_queue(
        words,
        cells,
        rows,
        picker.live,
        &counts,
        picker.shape,
        out,
    )))
}

// Seven words a record: index, finished, passed_hash_check, writing, locked, requested, hashing.
pub fn get_download_queue(
    words: &[u64],
    cells: &[u16],
    partials: &[DownloadingPiece],
    out: &mut [u64],
) -> Result<Option<usize>, Refusal>
    ensures { Listed 7 tell_infos (lending words.now cells.now partials.now)
        (list_of_picker get_download_queue (length out.old / 7)) out.old out.new result }
{
    let mut rows = [0; 1536];
    let live = live_records(words);
    let lent = unpack(partials, live, &mut rows);
    get_download_queue_core(words, cells, &rows, lent, out)
}
