// The bucket list in the lent words: a place of it read, and its length stored after the list was mended or rebuilt in its places.
// What mending and rebuilding ask and leave is said here. None of it reads the records of partials.
#![tactic(auto)]

ghost use Rattle.std.specs.Prelude.{◌≡◌, ◌≤◌, ◌<◌, length, set};
ghost use Rattle.model.specs.Lists.{nth};
ghost use Rattle.model.specs.State.{list_of};
ghost use Rattle.memory_layout.specs.Decode.{head_word};
ghost use Rattle.memory_layout.specs.Bounds.{WordsSpan};
ghost use Rattle.memory_fields.specs.Reading.{WordsSay};

use memory_layout::{Shape, piece_word, set_head_word};
use types::{u64_to_usize, usize_to_u64};

// The piece at place k of the list.
pub fn list_place(words: &[u64], s: Shape, k: usize) -> usize
    requires words_span { WordsSpan s words.now }
    requires k_bound { (k < head_word words.now 6) × (head_word words.now 6 ≤ s.pieces) }
    ensures { WordsSay s words.now (λ d. nth 0 (list_of d.listing) k) result }
{
    u64_to_usize(piece_word(words, s, 1, k) % 65536)
}

// The first `len` places are the list from here on, and it is not dirty.
pub fn set_list_length(words: &mut [u64], len: usize)
    requires { 16 ≤ length words.old }
    ensures { words.new ≡ set (set words.old 6 len) 5 0 }
{
    set_head_word(words, 6, usize_to_u64(len));
    set_head_word(words, 5, 0);
}
