// A picker read from the bytes of an image.
ghost use Rattle.std.specs.Prelude.{◌≡◌, length};
ghost use Rattle.picker_calls.specs.Cores.{lending};
ghost use Rattle.picker_calls.specs.Starting.{ReadCalled};
ghost use Rattle.picker_images.specs.Answers.{why_not, why_not_read, count_read};
ghost use Rattle.picker_images.specs.Making.{ReadDone};

use memory_records::{DownloadingPiece, live_records, pack, unpack};
use types::Refusal;

// 13, then 2. What the rows held is not read. The answer is how many of them are records.
fn read_image_core(
    words: &mut [u64],
    cells: &mut [u16],
    rows: &mut [u32],
    lent: usize,
    bytes: &[u8],
) -> Result<usize, Refusal>
    requires { length rows.old ≡ 1536 }
    ensures { ReadDone words.old cells.old lent bytes.now words.new cells.new
        rows.new (why_not_read result) (count_read result) }
{
    image_read::read_image(bytes, words, cells, rows, lent)
}

// The picker of the image, whatever the buffers held.
pub fn read_image(
    words: &mut [u64],
    cells: &mut [u16],
    partials: &mut [DownloadingPiece],
    bytes: &[u8],
) -> Result<(), Refusal>
    ensures { ReadCalled (lending words.old cells.old partials.old) bytes.now
        (lending words.new cells.new partials.new) (why_not result) }
{
    let mut rows = [0; 1536];
    let live = live_records(words);
    let lent = unpack(partials, live, &mut rows);
    let count = read_image_core(words, cells, &mut rows, lent, bytes)?;
    pack(partials, &rows, count);
    Ok(())
}
