// The records of one number: recent extents, oldest first, and the places of the list. A dirty list has none.
ghost use Rattle.std.specs.Prelude.{◌+◌, ◌*◌, ◌≤◌, length};
ghost use Rattle.model.specs.Lists.{concat_map};
ghost use Rattle.model.specs.image.Image.{extent_kind, place_kind, number_record};
ghost use Rattle.memory_layout.specs.Decode.{head_word, extents_held, list_held};
ghost use Rattle.memory_layout.specs.Bounds.{WordsSpan};
ghost use Rattle.image_parts.specs.Parts.{Appended};

use image_bytes::body_length;
use image_put::put_number;
use memory_layout::{Shape, head_word, piece_word};
use types::u64_to_usize;

pub fn put_extents(words: &[u64], bytes: &mut [u8], at: usize) -> usize
    requires in_bounds { (16 ≤ length words.now) × (head_word words.now 8 ≤ 5) }
    requires words_in_bounds { at + 5 * head_word words.now 8 ≤ length bytes.old }
    ensures { Appended at (concat_map (number_record extent_kind) (extents_held words.now)) bytes.old
        bytes.new result }
{
    let step = 1 + body_length(5);
    let many = u64_to_usize(head_word(words, 8));
    let mut next = at;
    for k in 0..many {
        put_number(bytes, next, 5, head_word(words, 9 + k));
        next += step;
    }
    next
}

pub fn put_list(words: &[u64], s: Shape, bytes: &mut [u8], at: usize) -> usize
    requires words_span { (WordsSpan s words.now) × (head_word words.now 6 ≤ s.pieces) }
    requires words_in_bounds { at + 5 * head_word words.now 6 ≤ length bytes.old }
    ensures { Appended at (concat_map (number_record place_kind) (list_held words.now s.pieces)) bytes.old
        bytes.new result }
{
    let step = 1 + body_length(6);
    let many = u64_to_usize(head_word(words, 6));
    let mut next = at;
    for k in 0..many {
        put_number(bytes, next, 6, piece_word(words, s, 1, k) % 65536);
        next += step;
    }
    next
}
