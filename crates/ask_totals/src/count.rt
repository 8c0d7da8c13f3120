// The one pass over the pieces that every total comes from.
ghost use Rattle.std.specs.Prelude.{◌≡◌, ◌*◌, Bool};
ghost use Rattle.model.specs.Lists.{bit};
ghost use Rattle.memory_rows.specs.Lookup.{picker_in};
ghost use Rattle.ask_picker.specs.Asked.{Asked};
ghost use Rattle.ask_totals.specs.Totals.{Test, Computes, tested, included, Counted};

use crate::marks::mark_passed;
use memory_fields::{flushed, pad_bytes, priority};
use memory_layout::Shape;

// Which pieces are counted, of the four kinds that there are by whether a piece is had and whether it is filtered.
#[derive(Clone, Copy)]
pub struct Kinds {
    pub neither: bool,
    pub filtered: bool,
    pub had: bool,
    pub both: bool,
}

impl Kinds {
    // The kinds of which a test of the two holds.
    pub fn of<F: Fn(bool, bool) -> bool>(test: F) -> Kinds
        requires { F.IsAlwaysCallable test }
        ensures answered { (had out : Bool) → F.post test had out (included result had out) }
        ensures computed { (t : Test) → Computes (F.post test) t → included result ≡ t }
    {
        let neither = test(false, false);
        let filtered = test(false, true);
        let had = test(true, false);
        let both = test(true, true);
        Kinds {
            neither,
            filtered,
            had,
            both,
        }
    }

    // A piece that is had or not and filtered or not is of one of them.
    fn include(self, had: bool, out: bool) -> bool
        ensures { result ≡ included self had out }
    {
        if out {
            if had { self.both } else { self.filtered }
        } else {
            if had { self.had } else { self.neither }
        }
    }
}

// Pieces, their pad bytes, and whether the last piece is among them.
#[repr(C)]
#[derive(Drop)]
pub struct PieceCount {
    pub num_pieces: u64,
    pub pad_bytes: u64,
    pub last_piece: bool,
}

// The number, or 0 where it does not count.
fn counting(counts: bool, x: u64) -> u64
    ensures { result ≡ bit counts * x }
{
    if counts {
        return x;
    }
    0
}

// The pieces of these kinds, and their pad bytes.
pub fn counted(
    words: &[u64],
    cells: &[u16],
    rows: &[u32],
    live: usize,
    s: Shape,
    kinds: Kinds,
) -> PieceCount
    requires { Asked s live rows.now words.now cells.now }
    ensures { Counted (picker_in live rows.now words.now cells.now)
        (tested (included kinds) (picker_in live rows.now words.now cells.now)) result }
{
    let mut marks = [0; 4096];
    mark_passed(rows, live, &mut marks);
    let mut num: u64 = 0;
    let mut pads: u64 = 0;
    let mut last = false;
    for i in 0..s.pieces {
        let have = flushed(cells, s, i) | (marks[i] == 1);
        last = kinds.include(have, priority(cells, s, i) == 0);
        num = num + counting(last, 1);
        pads = pads + counting(last, pad_bytes(words, s, i));
    }
    PieceCount {
        num_pieces: num,
        pad_bytes: pads,
        last_piece: last,
    }
}
