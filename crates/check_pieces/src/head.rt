// The test of the head: flags and numbers have room, and seeds and cursors are in range.
ghost use Rattle.std.specs.Prelude.{◌≡◌, true, ◌≤◌, length};
ghost use Rattle.model.specs.State.{valid_geometry};
ghost use Rattle.memory_layout.specs.Decode.{head_word};
ghost use Rattle.check_pieces.specs.Parts.{HeadTest, ranges_ok, lengths_ok};

use memory_layout::{head_word, shape_of};
use types::usize_to_u64;

// The dirty flag, and how many list places, partials and extents there are, where n pieces have so many places for partials.
fn lengths_ok(n: u64, places: u64, dirty: u64, list: u64, partials: u64, extents: u64) -> bool
    ensures { result ≡ lengths_ok n places dirty list partials extents }
{
    if 1 < dirty {
        return false;
    }
    if dirty == 1 {
        if 0 < list {
            return false;
        }
    }
    if n < list {
        return false;
    }
    if places < partials {
        return false;
    }
    extents <= 5
}

// Seeds and both cursors, where there are n pieces.
fn ranges_ok(n: u64, seeds: u64, cursor: u64, reverse: u64) -> bool
    ensures { result ≡ ranges_ok n seeds cursor reverse }
{
    if 1000 < seeds {
        return false;
    }
    if n < cursor {
        return false;
    }
    reverse <= n
}

// The words alone decide.
pub fn head_ok(words: &[u64]) -> bool
    requires in_bounds { 16 ≤ length words.now }
    requires words_value { valid_geometry (head_word words.now 0) (head_word words.now 1) ≡ true }
    ensures { HeadTest result words.now }
{
    let s = shape_of(words);
    let n = usize_to_u64(s.pieces);
    let places = usize_to_u64(s.places);
    if !lengths_ok(
        n,
        places,
        head_word(words, 5),
        head_word(words, 6),
        head_word(words, 7),
        head_word(words, 8),
    ) {
        return false;
    }
    ranges_ok(
        n,
        head_word(words, 2),
        head_word(words, 3),
        head_word(words, 4),
    )
}
