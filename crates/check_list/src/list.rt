// The test of the list: as many places as pieces with a rank, each place such a piece with its rank beside it, none twice, ranks never
// falling.
ghost use Rattle.std.specs.Prelude.{◌≡◌, ◌+◌, ◌≤◌, length};
ghost use Rattle.memory_layout.specs.Decode.{head_word};
ghost use Rattle.check_pieces.specs.Parts.{HeadPassed};
ghost use Rattle.check_list.specs.Places.{ranked_in, Stepped, FourPassed, RestPassed};
ghost use Rattle.check_list.specs.Answers.{PlaceTest, ListTest};

use memory_layout::{Shape, head_word, list_column};
use types::{u16_to_u64, u16_to_usize, u64_to_usize};

// How many of the first n ranks are not 0. The count has as many bits as a rank, so that many are counted at once.
fn ranked(ranks: &[u16], n: usize) -> usize
    requires { (n ≤ 4096) × (n ≤ length ranks.now) }
    ensures { result ≡ ranked_in ranks.now n }
{
    let mut many: u16 = 0;
    for i in 0..n {
        if 0 < ranks[i] {
            many += 1;
        }
    }
    u16_to_usize(many)
}

// One place of the list: its rank, or 0 if it fails. The rank of a piece that was passed becomes 0, and no place has a rank below `last`.
fn step(ranks: &mut [u16], n: usize, last: u64, word: u64) -> u64
    requires n_bound { (n ≤ 4096) × (n ≤ length ranks.old) }
    requires le_last { 1 ≤ last }
    ensures { Stepped n last word ranks.old result ranks.new }
{
    let rank = word / 65536;
    let piece = u64_to_usize(word % 65536);
    if rank < last {
        return 0;
    }
    if n <= piece {
        return 0;
    }
    if u16_to_u64(ranks[piece]) != rank {
        return 0;
    }
    ranks[piece] = 0;
    rank
}

// Four places from k on: the rank of the last one, or 0 if one fails.
fn four(list: &[u64], n: usize, k: usize, last: u64, ranks: &mut [u16]) -> u64
    requires n_bound { (n ≤ 4096) × (n ≤ length ranks.old) }
    requires k_in_bounds { (k + 4 ≤ length list.now) × (length list.now ≤ 4096) }
    requires le_last { 1 ≤ last }
    ensures { FourPassed n list.now k last ranks.old result ranks.new }
{
    let first = step(ranks, n, last, list[k]);
    if first == 0 {
        return 0;
    }
    let second = step(ranks, n, first, list[k + 1]);
    if second == 0 {
        return 0;
    }
    let third = step(ranks, n, second, list[k + 2]);
    if third == 0 {
        return 0;
    }
    step(ranks, n, third, list[k + 3])
}

// The places from `start` on one after another; the one before them has rank `least`.
fn rest_ok(list: &[u64], n: usize, start: usize, many: usize, least: u64, ranks: &mut [u16]) -> bool
    requires n_bound { (n ≤ 4096) × (n ≤ length ranks.old) }
    requires start_le_many { (start ≤ many) × (many ≤ length list.now) × (length list.now ≤ 4096) }
    requires le_least { 1 ≤ least }
    ensures { RestPassed n list.now start many least ranks.old result }
{
    let mut last = least;
    for k in start..many {
        last = step(ranks, n, last, list[k]);
        if last == 0 {
            return false;
        }
    }
    true
}

// The places, four a turn as far as that goes.
fn places_ok(words: &[u64], s: Shape, many: usize, ranks: &mut [u16]) -> bool
    requires head_passed { (HeadPassed s words.now) × (many ≡ head_word words.now 6) }
    requires pieces_in_bounds { s.pieces ≤ length ranks.old }
    ensures { PlaceTest s.pieces result words.now ranks.old }
{
    let list = list_column(words, s);
    let n = s.pieces;
    let mut last: u64 = 1;
    let fours = many / 4;
    for k in 0..fours {
        last = four(list, n, 4 * k, last, ranks);
        if last == 0 {
            return false;
        }
    }
    rest_ok(list, n, 4 * fours, many, last, ranks)
}

// The ranks do not last: what was passed is 0.
pub fn list_ok(words: &[u64], s: Shape, ranks: &mut [u16]) -> bool
    requires head_passed { HeadPassed s words.now }
    requires pieces_in_bounds { s.pieces ≤ length ranks.old }
    ensures { ListTest s.pieces result words.now ranks.old }
{
    if head_word(words, 5) == 1 {
        return true;
    }
    let many = u64_to_usize(head_word(words, 6));
    if ranked(ranks, s.pieces) != many {
        return false;
    }
    places_ok(words, s, many, ranks)
}
