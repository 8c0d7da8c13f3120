// The words of the head: seeds, cursors, whether the list is dirty and how long it is, the number of partials.
ghost use Rattle.std.specs.Prelude.{◌≡◌};
ghost use Rattle.model.specs.Lists.{len};
ghost use Rattle.model.specs.State.{is_dirty, list_of};
ghost use Rattle.memory_layout.specs.Decode.{head_word};
ghost use Rattle.memory_layout.specs.Bounds.{WordsSpan};
ghost use Rattle.memory_fields.specs.Reading.{HeadSays, WordsSay};

use memory_layout::{Shape, head_word};
use types::u64_to_usize;

pub fn seeds(words: &[u64], s: Shape) -> u64
    requires { WordsSpan s words.now }
    ensures { HeadSays words.now (λ d. d.seeds) result }
{
    head_word(words, 2)
}

pub fn cursor(words: &[u64], s: Shape) -> u64
    requires { WordsSpan s words.now }
    ensures { HeadSays words.now (λ d. d.cursor) result }
{
    head_word(words, 3)
}

pub fn reverse_cursor(words: &[u64], s: Shape) -> u64
    requires { WordsSpan s words.now }
    ensures { HeadSays words.now (λ d. d.reverse_cursor) result }
{
    head_word(words, 4)
}

// The list has to be rebuilt.
pub fn is_dirty(words: &[u64], s: Shape) -> bool
    requires { WordsSpan s words.now }
    ensures { HeadSays words.now (λ d. is_dirty d.listing) result }
{
    head_word(words, 5) == 1
}

// How many places the list has, none where it is dirty.
pub fn list_length(words: &[u64], s: Shape) -> usize
    requires { WordsSpan s words.now }
    ensures { (result ≡ head_word words.now 6) × (WordsSay s words.now (λ d. len (list_of d.listing)) result) }
{
    u64_to_usize(head_word(words, 6))
}

pub fn num_partials(words: &[u64], s: Shape) -> usize
    requires { WordsSpan s words.now }
    ensures { (result ≡ head_word words.now 7) × (HeadSays words.now (λ d. len d.partials) result) }
{
    u64_to_usize(head_word(words, 7))
}
