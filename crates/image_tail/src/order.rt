// The places of the list: each a piece with a rank that was not listed before, ranks never falling, as many as such pieces.
// The rank of a piece that is listed becomes 0, so that one test does for all three.
ghost use Rattle.std.specs.Prelude.{◌≡◌, ◌≤◌, length};
ghost use Rattle.check_list.specs.Places.{ranked_in};
ghost use Rattle.image_tail.specs.Order.{Taken, OrderJudged, ListingJudged};

use image_records::read_number;
use types::{u16_to_usize, u64_to_usize, usize_to_u64};

// The place at `at`, behind one of rank `last`.
fn take_place(bytes: &[u8], at: usize, n: usize, last: u16, ranks: &mut [u16]) -> Option<u16>
    requires n_bound { (n ≤ 4096) × (n ≤ length ranks.old) }
    requires le_last { 1 ≤ last }
    ensures { Taken n last at bytes.now ranks.old ranks.new result }
{
    let i = read_number(bytes, at, 6)?;
    if usize_to_u64(n) <= i {
        return None;
    }
    let piece = u64_to_usize(i);
    let rank = ranks[piece];
    if rank < last {
        return None;
    }
    ranks[piece] = 0;
    Some(rank)
}

// How many of the first n ranks are not 0.
fn ranked(ranks: &[u16], n: usize) -> usize
    requires { (n ≤ 4096) × (n ≤ length ranks.now) }
    ensures { result ≡ ranked_in ranks.now n }
{
    let mut many: u16 = 0;
    for i in 0..n {
        if 0 < ranks[i] {
            many += 1;
        }
    }
    u16_to_usize(many)
}

// `many` places from `start` on.
fn read_order(
    bytes: &[u8],
    start: usize,
    many: usize,
    n: usize,
    ranks: &mut [u16],
) -> Result<usize, usize>
    requires n_bound { (n ≤ 4096) × (n ≤ length ranks.old) }
    requires start_in_bounds { start ≤ length bytes.now }
    ensures { OrderJudged start many n ranks.old bytes.now result }
{
    let mut last: u16 = 1;
    let mut at = start;
    for k in 0..many {
        let Some(rank) = take_place(bytes, at, n, last, ranks) else {
            return Err(at);
        };
        last = rank;
        at += 5;
    }
    Ok(at)
}

// The list, unless it is dirty, where `ranks` are those of the n pieces. They do not last. Answers the place behind the list, or as the
// error that of the record at fault.
pub fn read_listing(
    bytes: &[u8],
    at: usize,
    dirty: bool,
    n: usize,
    ranks: &mut [u16],
) -> Result<usize, usize>
    requires n_bound { (n ≤ 4096) × (n ≤ length ranks.old) }
    requires at_in_bounds { at ≤ length bytes.now }
    ensures { ListingJudged at dirty n ranks.old bytes.now result }
{
    if dirty {
        return Ok(at);
    }
    let many = ranked(ranks, n);
    read_order(bytes, at, many, n, ranks)
}
