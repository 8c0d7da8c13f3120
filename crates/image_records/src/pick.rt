// The record of a pick, which stands behind an image and never in one.
ghost use Rattle.image_records.specs.Records.{PickJudged};

use crate::block::peer_fits;
use crate::front::{body_of, stands};
use image_bytes::{read1, read2, read8};

// Options, blocks wanted, blocks wanted in a row, peers, and who asks; `peer` is 0 where nobody does.
#[derive(Drop)]
pub struct Pick {
    pub options: u64,
    pub wanted: u64,
    pub contiguous: u64,
    pub peers: u64,
    pub has_peer: bool,
    pub peer: u64,
}

pub fn read_pick(bytes: &[u8], at: usize) -> Option<Pick>
    ensures { PickJudged at bytes.now result }
{
    if !stands(bytes, at, 7) {
        return None;
    }
    let body = body_of(bytes, at, 7);
    let has = read1(body, 8);
    let peer = read8(body, 9);
    if !peer_fits(has, peer) {
        return None;
    }
    Some(Pick {
        options: read2(body, 0),
        wanted: read2(body, 2),
        contiguous: read2(body, 4),
        peers: read2(body, 6),
        has_peer: has == 1,
        peer: peer,
    })
}
