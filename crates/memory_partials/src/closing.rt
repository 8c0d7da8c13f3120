// A partial closed: one less is counted.
ghost use Rattle.std.specs.Prelude.{◌<◌};
ghost use Rattle.memory_layout.specs.Decode.{head_word};
ghost use Rattle.memory_layout.specs.Bounds.{WordsSpan};
ghost use Rattle.memory_partials.specs.Partials.{Closed};

use memory_layout::{Shape, head_word, set_head_word};

// With the record of a piece that has one taken out, its partial is gone.
pub fn drop_partial(words: &mut [u64], s: Shape)
    requires words_span { WordsSpan s words.old }
    requires nonzero { 0 < head_word words.old 7 }
    ensures { Closed s words.old words.new }
{
    let n = head_word(words, 7);
    set_head_word(words, 7, n - 1);
}
