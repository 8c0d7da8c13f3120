// The recent extents, oldest first: one more, or one less.
ghost use Rattle.std.specs.Prelude.{◌++◌, ◌∷◌, [], ◌≤◌, ◌<◌};
ghost use Rattle.model.specs.Lists.{remove_nth};
ghost use Rattle.model.specs.State.{max_extents, with_recent_extents};
ghost use Rattle.memory_layout.specs.Decode.{head_word};
ghost use Rattle.memory_layout.specs.Bounds.{WordsSpan};
ghost use Rattle.memory_fields.specs.Storing.{WordsStored};

use memory_layout::{Shape, head_word, set_head_word};
use types::{u64_to_usize, usize_to_u64};

// One more, as the latest.
pub fn push_recent_extent(words: &mut [u64], s: Shape, v: u64)
    requires words_span { WordsSpan s words.old }
    requires words_bound { head_word words.old 8 < max_extents }
    ensures { WordsStored s (λ d. with_recent_extents (d.recent_extents ++ (v ∷ [])) d) words.old words.new }
{
    let n = u64_to_usize(head_word(words, 8));
    set_head_word(words, 9 + n, v);
    let w = usize_to_u64(n + 1);
    set_head_word(words, 8, w);
}

// Extent p goes: those behind it move down by one.
pub fn remove_recent_extent(words: &mut [u64], s: Shape, p: usize)
    requires words_span { WordsSpan s words.old }
    requires p_bound { (p < head_word words.old 8) × (head_word words.old 8 ≤ max_extents) }
    ensures { WordsStored s (λ d. with_recent_extents (remove_nth p d.recent_extents) d) words.old words.new }
{
    let n = u64_to_usize(head_word(words, 8));
    words.copy_within(10 + p..9 + n, 9 + p);
    let w = usize_to_u64(n - 1);
    set_head_word(words, 8, w);
}
