// The whole image, part behind part.
ghost use Rattle.std.specs.Prelude.{◌≤◌, length};
ghost use Rattle.model.specs.Lists.{len};
ghost use Rattle.model.specs.image.Image.{image};
ghost use Rattle.memory_rows.specs.Lookup.{picker_in};
ghost use Rattle.ask_picker.specs.Asked.{Asked};
ghost use Rattle.image_write.specs.Written.{ImageWritten, ImageTaken};

use crate::lengths::image_length;
use image_bytes::body_length;
use image_parts::{put_extents, put_head_of, put_list, put_partials, put_pieces};
use memory_layout::Shape;

// How many bytes were written.
pub fn write_image(
    words: &[u64],
    cells: &[u16],
    rows: &[u32],
    live: usize,
    s: Shape,
    bytes: &mut [u8],
) -> usize
    requires asked { Asked s live rows.now words.now cells.now }
    requires cells_in_bounds { len (image (picker_in live rows.now words.now cells.now)) ≤ length bytes.old }
    ensures { ImageWritten (picker_in live rows.now words.now cells.now) bytes.old
        bytes.new result }
{
    put_head_of(words, bytes);
    let head = 1 + body_length(1);
    let pieces = put_pieces(words, cells, s, bytes, head);
    let partials = put_partials(words, cells, rows, live, s, bytes, pieces);
    let extents = put_extents(words, bytes, partials);
    put_list(words, s, bytes, extents)
}

// The image where it has room; else nothing is written.
pub fn take_image(
    words: &[u64],
    cells: &[u16],
    rows: &[u32],
    live: usize,
    s: Shape,
    bytes: &mut [u8],
) -> Option<usize>
    requires { Asked s live rows.now words.now cells.now }
    ensures { ImageTaken (picker_in live rows.now words.now cells.now) bytes.old
        bytes.new result }
{
    let long = image_length(words, rows, live, s);
    if bytes.len() < long {
        return None;
    }
    Some(write_image(words, cells, rows, live, s, bytes))
}
