// The operations on a list of words, for callers in C and Rust. Only for comparison and timing: a caller has to meet what is required.
#![tactic(auto)]

ghost use Rattle.std.specs.Prelude.{◌+◌, ◌≤◌, ◌<◌, eqb, length, take};
ghost use Rattle.model.specs.Lists.{bit};
ghost use Rattle.list_words.specs.Updating.{Ready};
ghost use Rattle.model.specs.State.{max_pieces};
ghost use Rattle.list_sort.specs.Sorting.{Ranked};

use list_rebuild::Rebuilt;
use list_words::Updated;

// The list mended after a piece came from rank `old` to `new`.
#[unsafe(no_mangle)]
pub extern "C" fn lw_update(
    list: &mut [u64],
    n: usize,
    piece: u64,
    old: u64,
    new: u64,
    draws: &[u32],
    used: usize,
) -> Updated
    requires in_bounds { n + bit (eqb old 0) ≤ length list.old }
    requires piece_bound { piece < 65536 }
    requires bound { old < 65536 }
    requires bound_2 { new < 65536 }
    requires ready { Ready old piece (take n list.old) }
    requires used_in_bounds { used ≤ length draws.now }
{
    list_words::update(list, n, piece, old, new, draws, used)
}

// The list of the first n pieces made anew.
#[unsafe(no_mangle)]
pub extern "C" fn lw_update_pieces(
    list: &mut [u64],
    ranks: &[u16],
    n: usize,
    draws: &[u32],
    t: usize,
) -> Rebuilt
    requires n_in_bounds { n ≤ length ranks.now }
    requires n_le_max_pieces { n ≤ max_pieces }
    requires n_in_bounds_2 { n ≤ length list.old }
    requires ranked { Ranked n ranks.now }
    requires t_in_bounds { t ≤ length draws.now }
{
    list_rebuild::update_pieces(list, ranks, n, draws, t)
}
