// The image of a picker in lent buffers, and a new picker, for callers in C and Rust. Only for comparison and timing: a caller has to meet
// what is required. The geometry comes in numbers, as a call has it from the memory test.
#![tactic(auto)]

ghost use Rattle.std.specs.Prelude.{◌≡◌, true, ◌≤◌, length};
ghost use Rattle.model.specs.Lists.{len};
ghost use Rattle.model.specs.State.{valid_geometry};
ghost use Rattle.model.specs.image.Image.{image};
ghost use Rattle.memory_rows.specs.Lookup.{picker_in};
ghost use Rattle.ask_picker.specs.Asked.{Asked};
ghost use Rattle.memory_new.specs.Fresh.{Room};
ghost use Rattle.image_write.specs.Written.{AskedBeside, LengthSays, ImageWritten};
ghost use Rattle.link_image.specs.Lending.{shaped, NewPicker};

use memory_layout::Shape;

// Pieces, blocks of a whole piece, and places for partials.
#[repr(C)]
#[derive(Drop)]
pub struct Geometry {
    pub pieces: usize,
    pub blocks: usize,
    pub places: usize,
}

// The same for the crates below.
fn shape(g: Geometry) -> Shape
    ensures { result ≡ shaped g.pieces g.blocks g.places }
{
    Shape {
        pieces: g.pieces,
        blocks: g.blocks,
        places: g.places,
    }
}

// The length of the image. The first `live` rows are the live records.
#[unsafe(no_mangle)]
pub extern "C" fn im_length(words: &[u64], rows: &[u32], live: usize, g: Geometry) -> usize
    requires { AskedBeside (shaped g.pieces g.blocks g.places) live rows.now words.now }
    ensures { LengthSays (shaped g.pieces g.blocks g.places) live rows.now words.now result }
{
    image_write::image_length(words, rows, live, shape(g))
}

// The image, in bytes that have room for it. Answers how many were written.
#[unsafe(no_mangle)]
pub extern "C" fn im_write(
    words: &[u64],
    cells: &[u16],
    rows: &[u32],
    live: usize,
    g: Geometry,
    bytes: &mut [u8],
) -> usize
    requires asked { Asked (shaped g.pieces g.blocks g.places) live rows.now words.now cells.now }
    requires cells_in_bounds { len (image (picker_in live rows.now words.now cells.now)) ≤ length bytes.old }
    ensures { ImageWritten (picker_in live rows.now words.now cells.now) bytes.old
        bytes.new result }
{
    let s = shape(g);
    image_write::write_image(words, cells, rows, live, s, bytes)
}

// The new picker of a geometry that is valid, in buffers that have room for it.
#[unsafe(no_mangle)]
pub extern "C" fn im_new(words: &mut [u64], cells: &mut [u16], total: u64, size: u64)
    requires size_value { valid_geometry total size ≡ true }
    requires room { Room total size words.old cells.old }
    ensures { NewPicker total size words.old cells.old words.new cells.new }
{
    memory_new::make(words, cells, total, size);
}
