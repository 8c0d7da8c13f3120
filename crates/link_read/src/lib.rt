// The reader of images for callers in C and Rust. Only for comparison and timing: a caller has to lend 1,536 rows.
#![tactic(auto)]

ghost use Rattle.std.specs.Prelude.{◌≡◌, length};
ghost use Rattle.link_read.specs.Numbers.{Answered};

// Any bytes read into the buffers, where `lent` records are lent. Answers the number of the refusal, or 0: then the first rows are the
// picker's partials, as many as word 7 says.
#[unsafe(no_mangle)]
pub extern "C" fn im_read(
    bytes: &[u8],
    words: &mut [u64],
    cells: &mut [u16],
    rows: &mut [u32],
    lent: usize,
) -> u8
    requires { length rows.old ≡ 1536 }
    ensures { Answered lent bytes.now words.old cells.old rows.old
        words.new cells.new rows.new result }
{
    match image_read::read_image(bytes, words, cells, rows, lent) {
        Ok(_) => 0,
        Err(why) => why.number(),
    }
}
