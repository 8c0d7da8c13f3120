// The recent extents, oldest first.
ghost use Rattle.std.specs.Prelude.{◌≡◌, ◌≤◌, ◌<◌};
ghost use Rattle.model.specs.Lists.{nth, len};
ghost use Rattle.model.specs.State.{max_extents};
ghost use Rattle.memory_layout.specs.Decode.{head_word};
ghost use Rattle.memory_layout.specs.Bounds.{WordsSpan};
ghost use Rattle.memory_fields.specs.Reading.{HeadSays};

use memory_layout::{Shape, head_word};
use types::u64_to_usize;

pub fn num_recent_extents(words: &[u64], s: Shape) -> usize
    requires { WordsSpan s words.now }
    ensures { (result ≡ head_word words.now 8) × (HeadSays words.now (λ d. len d.recent_extents) result) }
{
    u64_to_usize(head_word(words, 8))
}

pub fn recent_extent(words: &[u64], s: Shape, k: usize) -> u64
    requires words_span { WordsSpan s words.now }
    requires k_bound { (k < head_word words.now 8) × (head_word words.now 8 ≤ max_extents) }
    ensures { HeadSays words.now (λ d. nth 0 d.recent_extents k) result }
{
    head_word(words, 9 + k)
}
