// A new picker.
ghost use Rattle.picker_calls.specs.Cores.{lending};
ghost use Rattle.picker_calls.specs.Starting.{NewCalled};
ghost use Rattle.picker_images.specs.Answers.{why_not};
ghost use Rattle.picker_images.specs.Making.{NewDone};

use crate::needs::is_short;
use geometry::valid_geometry;
use memory_new::make;
use memory_records::DownloadingPiece;
use types::{Refusal, i32_to_usize, i64_to_u64, usize_to_u64};

// 1 and 2; `lent` is the number of records, of which none is read or written.
fn new_core(
    words: &mut [u64],
    cells: &mut [u16],
    lent: usize,
    total_size: i64,
    piece_size: i32,
) -> Result<(), Refusal>
    ensures { NewDone words.old cells.old lent total_size piece_size words.new
        cells.new (why_not result) }
{
    let total = i64_to_u64(total_size);
    let size = usize_to_u64(i32_to_usize(piece_size));
    if !valid_geometry(total, size) {
        return Err(Refusal::Geometry);
    }
    if is_short(words, cells, lent, total, size) {
        return Err(Refusal::ShortMemory);
    }
    make(words, cells, total, size);
    Ok(())
}

// A picker of this geometry, whatever the buffers held.
pub fn new(
    words: &mut [u64],
    cells: &mut [u16],
    partials: &mut [DownloadingPiece],
    total_size: i64,
    piece_size: i32,
) -> Result<(), Refusal>
    ensures { NewCalled (lending words.old cells.old partials.old) total_size piece_size
        (lending words.new cells.new partials.new) (why_not result) }
{
    new_core(words, cells, partials.len(), total_size, piece_size)
}
