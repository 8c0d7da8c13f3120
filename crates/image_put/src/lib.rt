// The records of an image, one function for each kind: a byte of kind and a body, put from a place of a lent buffer on. What is before and
// behind stays as it was. The widest number is put first: the compiler then stores its bytes at once.
#![tactic(auto)]

ghost use Rattle.std.specs.Prelude.{◌+◌, ◌≤◌, ◌<◌, length};
ghost use Rattle.model.specs.image.Image.{number_record};
ghost use Rattle.image_bytes.specs.Put.{Put};
ghost use Rattle.image_put.specs.Fields.{head_fields, piece_fields, partial_fields, block_fields};

use image_bytes::{put1, put2, put4, put8};

// The kinds.
const HEAD: u64 = 1;

const PIECE: u64 = 2;

const PARTIAL: u64 = 3;

const BLOCK: u64 = 4;

// The head stands first.
pub fn put_head(
    bytes: &mut [u8],
    total: u64,
    piece_size: u64,
    seeds: u64,
    cursor: u64,
    reverse_cursor: u64,
    dirty: u64,
)
    requires { 24 ≤ length bytes.old }
    ensures { Put 0 (head_fields total piece_size seeds cursor reverse_cursor dirty) bytes.old bytes.new }
{
    put1(bytes, 0, HEAD);
    put8(bytes, 1, total);
    put4(bytes, 9, piece_size);
    put2(bytes, 13, seeds);
    put4(bytes, 15, cursor);
    put4(bytes, 19, reverse_cursor);
    put1(bytes, 23, dirty);
}

pub fn put_piece(
    bytes: &mut [u8],
    at: usize,
    peer_count: u64,
    state: u64,
    priority: u64,
    flushed: u64,
    pad_bytes: u64,
)
    requires { at + 10 ≤ length bytes.old }
    ensures { Put at (piece_fields peer_count state priority flushed pad_bytes) bytes.old bytes.new }
{
    put4(bytes, at + 6, pad_bytes);
    put1(bytes, at, PIECE);
    put2(bytes, at + 1, peer_count);
    put1(bytes, at + 3, state);
    put1(bytes, at + 4, priority);
    put1(bytes, at + 5, flushed);
}

// A partial without its blocks.
pub fn put_partial(bytes: &mut [u8], at: usize, piece: u64, flags: u64)
    requires { at + 6 ≤ length bytes.old }
    ensures { Put at (partial_fields piece flags) bytes.old bytes.new }
{
    put1(bytes, at, PARTIAL);
    put4(bytes, at + 1, piece);
    put1(bytes, at + 5, flags);
}

pub fn put_block(bytes: &mut [u8], at: usize, state: u64, num_peers: u64, has_peer: u64, peer: u64)
    requires { at + 13 ≤ length bytes.old }
    ensures { Put at (block_fields state num_peers has_peer peer) bytes.old bytes.new }
{
    put8(bytes, at + 5, peer);
    put1(bytes, at, BLOCK);
    put1(bytes, at + 1, state);
    put2(bytes, at + 2, num_peers);
    put1(bytes, at + 4, has_peer);
}

// A record of one number: an extent or a list place.
pub fn put_number(bytes: &mut [u8], at: usize, kind: u64, n: u64)
    requires at_in_bounds { at + 5 ≤ length bytes.old }
    requires kind_bound { kind < 256 }
    ensures { Put at (number_record kind n) bytes.old bytes.new }
{
    put4(bytes, at + 1, n);
    put1(bytes, at, kind);
}
