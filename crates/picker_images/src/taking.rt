// The image of a picker, in lent bytes.
ghost use Rattle.std.specs.Prelude.{◌≡◌, length};
ghost use Rattle.picker_calls.specs.Cores.{lending};
ghost use Rattle.picker_calls.specs.Starting.{ImageCalled};
ghost use Rattle.picker_images.specs.Answers.{image_answer};
ghost use Rattle.picker_images.specs.Making.{ImageDone};

use memory_records::{DownloadingPiece, live_records, unpack};
use picker_calls::admit;
use types::Refusal;

// 2 and 3 of the memory, then 2 of the bytes.
fn take_image_core(
    words: &[u64],
    cells: &[u16],
    rows: &[u32],
    lent: usize,
    bytes: &mut [u8],
) -> Result<usize, Refusal>
    requires { length rows.now ≡ 1536 }
    ensures { ImageDone words.now cells.now rows.now lent bytes.old bytes.new
        (image_answer result) }
{
    let mut counts = [0; 1536];
    let s = admit(words, cells, rows, lent, &mut counts)?;
    let live = live_records(words);
    image_write::take_image(words, cells, rows, live, s, bytes).ok_or(Refusal::ShortMemory)
}

// The image of the picker in front of the bytes; those behind it stay. Answers how many it has.
pub fn take_image(
    words: &[u64],
    cells: &[u16],
    partials: &[DownloadingPiece],
    bytes: &mut [u8],
) -> Result<usize, Refusal>
    ensures { ImageCalled (lending words.now cells.now partials.now) bytes.old
        bytes.new (image_answer result) }
{
    let mut rows = [0; 1536];
    let live = live_records(words);
    let lent = unpack(partials, live, &mut rows);
    take_image_core(words, cells, &rows, lent, bytes)
}
