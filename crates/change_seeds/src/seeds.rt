// The number of seeds, and the list that depends on whether there is one.
ghost use Rattle.std.specs.Prelude.{◌≤◌};
ghost use Rattle.model.specs.change.Changes.{break_one_seed, inc_refcount_all, dec_refcount_all};
ghost use Rattle.memory_layout.specs.Decode.{head_word};
ghost use Rattle.memory_layout.specs.Bounds.{WordsSpan};
ghost use Rattle.memory_layout.specs.Standing.{StandsBeside, ChangeMade};
ghost use Rattle.change_seeds.specs.Seeds.{DirtyWhere};

use crate::lowering::lower_all;
use crate::raising::raise_all;
use memory_fields::seeds;
use memory_head_stores::{mark_dirty, set_seeds};
use memory_layout::Shape;

// The list is dirty from here on where the test says so.
fn mark_dirty_if(words: &mut [u64], s: Shape, test: bool)
    requires { WordsSpan s words.old }
    ensures { DirtyWhere s test words.old words.new }
{
    if !test {
        return;
    }
    mark_dirty(words, s);
}

// A seed more. A first one gives a bucket to pieces without peers, so the list is dirty.
pub fn inc_refcount_all(words: &mut [u64], cells: &[u16], s: Shape)
    requires { StandsBeside s words.old cells.now }
    ensures { ChangeMade s inc_refcount_all words.old words.new cells.now cells.now }
{
    let n = seeds(words, s);
    set_seeds(words, s, n + 1);
    mark_dirty_if(words, s, n == 0);
}

// A seed goes, and with the last one the list is dirty. Without a seed a peer of each piece goes.
pub fn dec_refcount_all(words: &mut [u64], cells: &mut [u16], s: Shape)
    requires { StandsBeside s words.old cells.old }
    ensures { ChangeMade s dec_refcount_all words.old words.new cells.old cells.new }
{
    let n = seeds(words, s);
    if n == 0 {
        lower_all(cells, s);
        mark_dirty(words, s);
        return;
    }
    let left = n - 1;
    set_seeds(words, s, left);
    mark_dirty_if(words, s, n == 1);
}

// A seed turns out to lack a piece, and counts with each piece from here on.
pub fn break_one_seed(words: &mut [u64], cells: &mut [u16], s: Shape)
    requires stands_beside { StandsBeside s words.old cells.old }
    requires bound { 1 ≤ head_word words.old 2 }
    ensures { ChangeMade s break_one_seed words.old words.new cells.old cells.new }
{
    let n = seeds(words, s);
    set_seeds(words, s, n - 1);
    raise_all(cells, s);
    mark_dirty(words, s);
}
