// The record of a block: its state, its peers, and the peer that asked last.
ghost use Rattle.std.specs.Prelude.{◌≡◌, drop};
ghost use Rattle.model.specs.image.Image.{block_kind, peer_fits, judged, read_block};
ghost use Rattle.image_records.specs.Records.{block_test, block_step};

use crate::front::{body_of, stands};
use image_bytes::{read1, read2, read8};

// The state by its number; `peer` is 0 where there is none.
#[derive(Drop)]
pub struct Block {
    pub state: u64,
    pub num_peers: u64,
    pub has_peer: bool,
    pub peer: u64,
}

// A flag, and a number that is 0 without it.
pub fn peer_fits(has: u64, peer: u64) -> bool
    ensures { result ≡ peer_fits has peer }
{
    (has == 1) | ((has == 0) & (peer == 0))
}

fn block_ok(state: u64, num_peers: u64, has: u64, peer: u64) -> bool
    ensures { result ≡ block_test state num_peers has peer }
{
    (state <= 3) & peer_fits(has, peer) & (num_peers <= 1000)
}

pub fn read_block(bytes: &[u8], at: usize) -> Option<Block>
    ensures { result ≡ block_step (judged block_kind read_block (drop at bytes.now)) }
{
    if !stands(bytes, at, 4) {
        return None;
    }
    let body = body_of(bytes, at, 4);
    let state = read1(body, 0);
    let num_peers = read2(body, 1);
    let has = read1(body, 3);
    let peer = read8(body, 4);
    if block_ok(state, num_peers, has, peer) {
        return Some(Block {
            state: state,
            num_peers: num_peers,
            has_peer: has == 1,
            peer: peer,
        });
    }
    None
}
