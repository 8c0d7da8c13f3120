// Whether all blocks of a partial are well, and how many are free and requested. It does not tell which one is not.
ghost use Rattle.std.specs.Prelude.{◌≡◌, cond, ◌+◌, ◌*◌, ◌≤◌, length};
ghost use Rattle.image_pass.specs.Blocks.{in_range, BlocksWell};

use crate::quads::pass_many;
use crate::tally::Tally;
use image_bytes::{read1, read2, read8};
use types::u64_to_usize;

// All numbers but the peer are as they may be.
fn in_range(kind: u64, state: u64, num_peers: u64, has: u64) -> bool
    ensures { result ≡ in_range kind state num_peers has }
{
    (kind == 4) & ((state <= 3) & ((has <= 1) & (num_peers <= 1000)))
}

pub fn only_if(t: bool, n: u64) -> u64
    ensures { result ≡ cond t n 0 }
{
    if t { n } else { 0 }
}

// A block a turn. Peers without the flag are joined, and have to be 0; free and requested blocks are counted in one sum.
fn pass_whole(bytes: &[u8], start: usize, many: usize) -> Option<Tally>
    requires { (start + 13 * many ≤ length bytes.now) × (1 ≤ many) × (many ≤ 256) }
    ensures { BlocksWell start many bytes.now result }
{
    let counts = [1u64, 65536, 0, 0];
    let mut lone = 0;
    let mut sum = 0;
    let mut at = start;
    for j in 0..many {
        let kind = read1(bytes, at);
        let state = read1(bytes, at + 1);
        let num_peers = read2(bytes, at + 2);
        let has = read1(bytes, at + 4);
        let peer = read8(bytes, at + 5);
        if !in_range(kind, state, num_peers, has) {
            return None;
        }
        lone = lone | only_if(has == 0, peer);
        sum += counts[u64_to_usize(state)];
        at += 13;
    }
    if lone != 0 {
        return None;
    }
    Some(Tally {
        free: sum % 65536,
        requested: sum / 65536,
    })
}

// `many` blocks from `start` on, where all are well; nothing where that is unclear.
pub fn pass_blocks(bytes: &[u8], start: usize, many: usize) -> Option<Tally>
    requires { (start ≤ length bytes.now) × (1 ≤ many) × (many ≤ 256) }
    ensures { BlocksWell start many bytes.now result }
{
    if bytes.len() - start < 13 * many {
        return None;
    }
    if many < 64 {
        return pass_whole(bytes, start, many);
    }
    pass_many(bytes, start, many)
}
