// The head.
ghost use Rattle.std.specs.Prelude.{◌≤◌, length};
ghost use Rattle.image_bytes.specs.Put.{Put};
ghost use Rattle.image_parts.specs.Parts.{head_in};

use image_put::put_head;
use memory_layout::head_word;

pub fn put_head_of(words: &[u64], bytes: &mut [u8])
    requires { (16 ≤ length words.now) × (24 ≤ length bytes.old) }
    ensures { Put 0 (head_in words.now) bytes.old bytes.new }
{
    put_head(
        bytes,
        head_word(words, 0),
        head_word(words, 1),
        head_word(words, 2),
        head_word(words, 3),
        head_word(words, 4),
        head_word(words, 5),
    );
}
