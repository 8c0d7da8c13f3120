// What a pick is asked, in the Rust's types, and the same in numbers.
ghost use Rattle.std.specs.Prelude.{◌≡◌, ◌-◌, ◌%◌};
ghost use Rattle.pick_judge.specs.Asking.{request_numbers};

use pick_state::PickRequest;
use types::{PickerOptions, i32_to_usize};

// The arguments of `pick_pieces` but for the lent slices: `bits` is the number of bits of the bitfield, `end` the place where the output so
// far ends. A peer that is not there is a flag of false.
#[derive(Clone, Copy)]
pub struct PickInput {
    pub options: PickerOptions,
    pub num_blocks: i32,
    pub prefer_contiguous_blocks: i32,
    pub num_peers: i32,
    pub has_peer: bool,
    pub peer: u64,
    pub bits: usize,
    pub end: usize,
}

// A number of 64 bits.
fn lent_peer(peer: u64) -> u64
    ensures { result ≡ peer % 18446744073709551616 }
{
    peer
}

// A negative number is past all that there can be.
pub fn request(a: PickInput) -> PickRequest
    ensures { result ≡ request_numbers a }
{
    PickRequest {
        options: a.options,
        wanted: i32_to_usize(a.num_blocks),
        contiguous: i32_to_usize(a.prefer_contiguous_blocks),
        peers: i32_to_usize(a.num_peers),
        has_peer: a.has_peer,
        peer: lent_peer(a.peer),
        bits: a.bits,
    }
}

// The places of the output that are free.
pub fn places_free(len: usize, end: usize) -> usize
    ensures { result ≡ len - end }
{
    len.saturating_sub(end)
}
