// The peer that asked for a block last, beside the one that a call names.
ghost use Rattle.std.specs.Prelude.{◌≡◌, ◌<◌};
ghost use Rattle.types.specs.Peer.{named_peer};
ghost use Rattle.model.specs.State.{same_peer};
ghost use Rattle.model.specs.change.Changes.{released};
ghost use Rattle.memory_blocks.specs.Blocks.{block_of};

use crate::info::BlockInfo;

// Two peers that are the same, or none of both. They come as numbers: a block handed on is copied, which giving back would wait for.
fn same_named(has_peer: bool, peer: u64, has_other: bool, other: u64) -> bool
    ensures { result ≡ same_peer (named_peer has_peer peer) (named_peer has_other other) }
{
    (!has_peer & !has_other) | (has_peer & has_other & (peer == other))
}

// The block's peer is the named one, or there is none of both.
pub fn same_peer(b: BlockInfo, has_peer: bool, peer: u64) -> bool
    ensures { result ≡ same_peer (block_of b).peer (named_peer has_peer peer) }
{
    same_named(b.has_peer, b.peer, has_peer, peer)
}

// A requester less of a requested block; the named peer is forgotten.
pub fn release(b: BlockInfo, has_peer: bool, peer: u64) -> BlockInfo
    requires { 1 < b.num_peers }
    ensures { (result.state ≡ 1) × (block_of result ≡ released (named_peer has_peer peer) (block_of b)) }
{
    let same = same_named(b.has_peer, b.peer, has_peer, peer);
    BlockInfo {
        state: 1,
        num_peers: b.num_peers - 1,
        has_peer: b.has_peer & !same,
        peer: b.peer,
    }
}
