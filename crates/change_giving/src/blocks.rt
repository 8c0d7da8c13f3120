// A block of a standing partial given back. Both functions start from the first draw.
ghost use Rattle.std.specs.Prelude.{◌<◌};
ghost use Rattle.types.specs.Peer.{named_peer};
ghost use Rattle.model.specs.change.Changes.{abort_in, cancel_in};
ghost use Rattle.change_blocks.specs.Replacing.{TallyBeside};
ghost use Rattle.change_giving.specs.Returning.{Gave};

use change_blocks::{retally, set_block};
use change_returns::{Given, close_partial, is_last};
use change_state::Tally;
use memory_blocks::{BlockInfo, get_block, put_block, release};
use memory_layout::Shape;
use memory_records::Edit;
use types::BlockState;

// A requester less of block j of the partial of piece i at place p, whose blocks have the numbers of `t`: the block is free once its last
// one is gone. Nothing where it is not requested.
pub fn release_block(
    words: &mut [u64],
    cells: &mut [u16],
    s: Shape,
    i: usize,
    p: usize,
    j: usize,
    t: Tally,
    has_peer: bool,
    peer: u64,
    draws: &[u32],
) -> Given
    requires tally_beside { TallyBeside s words.old cells.old i p j t }
    requires i_lt_pieces { i < s.pieces }
    ensures { Gave s (λ found w. abort_in draws.now i found j (named_peer has_peer peer) w) i p j t
        words.old cells.old words.new cells.new result.edit result.used }
{
    let b = get_block(words, cells, s, p, j);
    if b.state != BlockState::Requested as u16 {
        return Given {
            edit: Edit::Keep,
            used: 0,
        };
    }
    if 1 < b.num_peers {
        let x = release(b, has_peer, peer);
        put_block(words, cells, s, p, j, x);
        return Given {
            edit: Edit::Keep,
            used: 0,
        };
    }
    if is_last(t) {
        return close_partial(words, cells, s, i, draws);
    }
    let x = BlockInfo {
        state: BlockState::None as u16,
        num_peers: 0,
        has_peer: false,
        ..b
    };
    let after = retally(t, BlockState::Requested as u16, BlockState::None as u16);
    let next = set_block(words, cells, s, i, p, j, x, after, draws, 0);
    Given {
        edit: Edit::Keep,
        used: next,
    }
}

// Block j of that partial after its write failed: a Writing one is free, a Finished one stays, and any other gets the named peer.
pub fn cancel_block(
    words: &mut [u64],
    cells: &mut [u16],
    s: Shape,
    i: usize,
    p: usize,
    j: usize,
    t: Tally,
    has_peer: bool,
    peer: u64,
    draws: &[u32],
) -> Given
    requires tally_beside { TallyBeside s words.old cells.old i p j t }
    requires i_lt_pieces { i < s.pieces }
    ensures { Gave s (λ found w. cancel_in draws.now i found j (named_peer has_peer peer) w) i p j t
        words.old cells.old words.new cells.new result.edit result.used }
{
    let b = get_block(words, cells, s, p, j);
    if b.state == BlockState::Finished as u16 {
        return Given {
            edit: Edit::Keep,
            used: 0,
        };
    }
    if b.state == BlockState::Writing as u16 {
        if is_last(t) {
            return close_partial(words, cells, s, i, draws);
        }
        let x = BlockInfo {
            state: BlockState::None as u16,
            has_peer,
            peer,
            ..b
        };
        let after = retally(t, BlockState::Writing as u16, BlockState::None as u16);
        let next = set_block(words, cells, s, i, p, j, x, after, draws, 0);
        return Given {
            edit: Edit::Keep,
            used: next,
        };
    }
    let x = BlockInfo {
        has_peer,
        peer,
        ..b
    };
    put_block(words, cells, s, p, j, x);
    Given {
        edit: Edit::Keep,
        used: 0,
    }
}
