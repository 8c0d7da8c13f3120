// A number for each piece.
// Written by tools/publics.py, and not by hand.
ghost use Rattle.std.specs.Prelude.{◌≡◌, length};
ghost use Rattle.model.specs.ask.Questions.{list_of_picker, get_availability_vec, piece_priorities};
ghost use Rattle.picker_calls.specs.Cores.{lending};
ghost use Rattle.picker_lists.specs.Listing.{tell_numbers, Listed, CoreListed};

use crate::admitted::admit_list;
use crate::rooms::Need;
use memory_records::{DownloadingPiece, live_records, unpack};
use types::Refusal;

fn get_availability_vec_core(
    words: &[u64],
    cells: &[u16],
    rows: &[u32],
    lent: usize,
    out: &mut [u16],
) -> Result<Option<usize>, Refusal>
    requires { length rows.now ≡ 1536 }
    ensures { CoreListed 1 tell_numbers words.now cells.now rows.now lent
        (list_of_picker get_availability_vec (length out.old)) out.old out.new result }
{
    let mut counts = [0; 1536];
    let room = out.len();
    let picker = admit_list(words, cells, rows, lent, &mut counts, Need::Pieces, room)?;
    ask_columns::get_availability_vec(words, cells, picker.shape, out);
    Ok(Some(picker.shape.pieces))
}

// The peers of each piece with the seeds.
pub fn get_availability_vec(
    words: &[u64],
    cells: &[u16],
    partials: &[DownloadingPiece],
    out: &mut [u16],
) -> Result<Option<usize>, Refusal>
    ensures { Listed 1 tell_numbers (lending words.now cells.now partials.now)
        (list_of_picker get_availability_vec (length out.old)) out.old out.new result }
{
    let mut rows = [0; 1536];
    let live = live_records(words);
    let lent = unpack(partials, live, &mut rows);
    get_availability_vec_core(words, cells, &rows, lent, out)
}

fn piece_priorities_core(
    words: &[u64],
    cells: &[u16],
    rows: &[u32],
    lent: usize,
    out: &mut [u16],
) -> Result<Option<usize>, Refusal>
    requires { length rows.now ≡ 1536 }
    ensures { CoreListed 1 tell_numbers words.now cells.now rows.now lent
        (list_of_picker piece_priorities (length out.old)) out.old out.new result }
{
    let mut counts = [0; 1536];
    let room = out.len();
    let picker = admit_list(words, cells, rows, lent, &mut counts, Need::Pieces, room)?;
    ask_columns::piece_priorities(words, cells, picker.shape, out);
    Ok(Some(picker.shape.pieces))
}

pub fn piece_priorities(
    words: &[u64],
    cells: &[u16],
    partials: &[DownloadingPiece],
    out: &mut [u16],
) -> Result<Option<usize>, Refusal>
    ensures { Listed 1 tell_numbers (lending words.now cells.now partials.now)
        (list_of_picker piece_priorities (length out.old)) out.old out.new result }
{
    let mut rows = [0; 1536];
    let live = live_records(words);
    let lent = unpack(partials, live, &mut rows);
    piece_priorities_core(words, cells, &rows, lent, out)
}
