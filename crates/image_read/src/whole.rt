// The bytes are judged, then the lengths of the buffers, and then the image is stored.
ghost use Rattle.std.specs.Prelude.{◌≡◌, length};
ghost use Rattle.image_store.specs.Given.{Image};
ghost use Rattle.image_read.specs.Reading.{ImageTold};

use crate::lengths::is_short;
use image_judge::judge_image;
use image_pieces::read_head;
use image_store::store_image;
use types::Refusal;

// The bytes are an image; `lent` records are lent.
fn read_accepted(
    bytes: &[u8],
    words: &mut [u64],
    cells: &mut [u16],
    rows: &mut [u32],
    lent: usize,
) -> Result<usize, Refusal>
    requires { (Image bytes.now) × (length rows.old ≡ 1536) }
    ensures { ImageTold lent bytes.now words.old cells.old rows.old
        words.new cells.new rows.new result }
{
    let head = read_head(bytes).unwrap();
    if is_short(words.len(), cells.len(), lent, head.total, head.size) {
        return Err(Refusal::ShortMemory);
    }
    let count = store_image(bytes, words, cells, rows);
    Ok(count)
}

// Any bytes. Refused with 13 and the place of the first fault where they are no image, and then with 2 where the memory is too short; else
// so many records are live.
pub fn read_image(
    bytes: &[u8],
    words: &mut [u64],
    cells: &mut [u16],
    rows: &mut [u32],
    lent: usize,
) -> Result<usize, Refusal>
    requires { length rows.old ≡ 1536 }
    ensures { ImageTold lent bytes.now words.old cells.old rows.old
        words.new cells.new rows.new result }
{
    match judge_image(bytes) {
        Ok(()) => read_accepted(bytes, words, cells, rows, lent),
        Err(k) => Err(Refusal::IllFormedImage(k)),
    }
}
