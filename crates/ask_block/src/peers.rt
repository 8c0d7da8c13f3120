// The peer of a block.
ghost use Rattle.std.specs.Prelude.{◌≡◌, ◌<◌};
ghost use Rattle.memory_layout.specs.Decode.{blocks_of};
ghost use Rattle.memory_rows.specs.Lookup.{picker_in};
ghost use Rattle.ask_picker.specs.Asked.{Asked};
ghost use Rattle.model.specs.ask.Questions.{reply, of_block, get_downloader, block_peer};
ghost use Rattle.memory_blocks.specs.Blocks.{block_of};
ghost use Rattle.ask_block.specs.Blocks.{peer_found, peer_reply};

use crate::find::block_of;
use memory_blocks::BlockInfo;
use memory_layout::Shape;

// A peer, or none; or no partial stands.
#[derive(Drop)]
pub enum PeerOf {
    Peer(u64),
    NoPeer,
    Nothing,
}

// The peer that asked for a block last.
fn peer_of(x: BlockInfo) -> PeerOf
    ensures { result ≡ peer_found (block_of x).peer }
{
    if x.has_peer {
        return PeerOf::Peer(x.peer);
    }
    PeerOf::NoPeer
}

// The peer of a block that is not free.
pub fn get_downloader(
    words: &[u64],
    cells: &[u16],
    rows: &[u32],
    live: usize,
    s: Shape,
    i: usize,
    j: usize,
) -> PeerOf
    requires asked { Asked s live rows.now words.now cells.now }
    requires i_lt_pieces { (i < s.pieces) × (j < blocks_of words.now i) }
    ensures { peer_reply result
        ≡ reply (picker_in live rows.now words.now cells.now) (of_block get_downloader i j) }
{
    let Some(x) = block_of(words, cells, rows, live, s, i, j) else {
        return PeerOf::NoPeer;
    };
    if x.state == 0 {
        return PeerOf::NoPeer;
    }
    peer_of(x)
}

pub fn block_peer(
    words: &[u64],
    cells: &[u16],
    rows: &[u32],
    live: usize,
    s: Shape,
    i: usize,
    j: usize,
) -> PeerOf
    requires asked { Asked s live rows.now words.now cells.now }
    requires i_lt_pieces { (i < s.pieces) × (j < blocks_of words.now i) }
    ensures { peer_reply result
        ≡ reply (picker_in live rows.now words.now cells.now) (of_block block_peer i j) }
{
    let Some(x) = block_of(words, cells, rows, live, s, i, j) else {
        return PeerOf::Nothing;
    };
    peer_of(x)
}
