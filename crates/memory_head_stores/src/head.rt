// The words of the head stored: seeds, cursors, and that the list is dirty.
ghost use Rattle.std.specs.Prelude.{◌≤◌};
ghost use Rattle.model.specs.State.{with_seeds, with_cursors};
ghost use Rattle.memory_layout.specs.Changes.{with_head};
ghost use Rattle.memory_layout.specs.Bounds.{WordsSpan};
ghost use Rattle.memory_fields.specs.Storing.{WordsStored, DirtyMarked};

use memory_layout::{Shape, set_head_word};

// Word k of the head stored: 2 seeds, 3 cursor, 4 reverse cursor.
fn set_word(words: &mut [u64], s: Shape, k: usize, v: u64)
    requires words_span { WordsSpan s words.old }
    requires le_k { (2 ≤ k) × (k ≤ 4) }
    ensures { WordsStored s (with_head k v) words.old words.new }
{
    set_head_word(words, k, v);
}

pub fn set_seeds(words: &mut [u64], s: Shape, v: u64)
    requires { WordsSpan s words.old }
    ensures { WordsStored s (with_seeds v) words.old words.new }
{
    set_word(words, s, 2, v);
}

pub fn set_cursor(words: &mut [u64], s: Shape, v: u64)
    requires { WordsSpan s words.old }
    ensures { WordsStored s (λ d. with_cursors v d.reverse_cursor d) words.old words.new }
{
    set_word(words, s, 3, v);
}

pub fn set_reverse_cursor(words: &mut [u64], s: Shape, v: u64)
    requires { WordsSpan s words.old }
    ensures { WordsStored s (λ d. with_cursors d.cursor v d) words.old words.new }
{
    set_word(words, s, 4, v);
}

// The list has to be rebuilt from here on: no place, then the flag. No rank is left to be held.
pub fn mark_dirty(words: &mut [u64], s: Shape)
    requires { WordsSpan s words.old }
    ensures { DirtyMarked s words.old words.new }
{
    set_head_word(words, 6, 0);
    set_head_word(words, 5, 1);
}
