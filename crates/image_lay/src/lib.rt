// Fields of records that stand one after another in bytes, laid out as columns of buffers: number j is read at `first` + `step` * j.
#![tactic(auto)]

mod parts;

ghost use Rattle.std.specs.Prelude.{◌+◌, ◌≤◌, length};
ghost use Rattle.image_lay.specs.Laid.{fields_at, Within, Laid};

use image_bytes::read4;
pub use parts::lay_part;

// Fields of four bytes as words.
pub fn lay4(bytes: &[u8], first: usize, step: usize, many: usize, words: &mut [u64], start: usize)
    requires within { Within first step many 4 bytes.now }
    requires many_in_bounds { start + many ≤ length words.old }
    ensures { Laid start many (fields_at first step 4 bytes.now) words.old words.new }
{
    for j in 0..many {
        words[start + j] = read4(bytes, first + step * j);
    }
}
