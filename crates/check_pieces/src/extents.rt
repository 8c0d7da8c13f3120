// The test of the extents: each in range, and none twice.
ghost use Rattle.std.specs.Prelude.{◌≡◌, ◌≤◌, length};
ghost use Rattle.model.specs.Lists.{member};
ghost use Rattle.check_pieces.specs.Parts.{HeadPassed, ExtentTest, extents_before};

use geometry_needs::num_extents;
use memory_layout::{Shape, head_word};
use types::{u64_to_usize, usize_to_u64};

// Whether one of the first k extents is e.
fn among(words: &[u64], k: usize, e: u64) -> bool
    requires in_bounds { 16 ≤ length words.now }
    requires k_bound { k ≤ 5 }
    ensures { result ≡ member e (extents_before words.now k) }
{
    for j in 0..k {
        if e == head_word(words, 9 + j) {
            return true;
        }
    }
    false
}

// The words alone decide.
pub fn extents_ok(words: &[u64], s: Shape) -> bool
    requires { HeadPassed s words.now }
    ensures { ExtentTest result words.now }
{
    let limit = num_extents(usize_to_u64(s.pieces), usize_to_u64(s.blocks));
    let many = u64_to_usize(head_word(words, 8));
    for k in 0..many {
        let e = head_word(words, 9 + k);
        if limit <= e {
            return false;
        }
        if among(words, k, e) {
            return false;
        }
    }
    true
}
