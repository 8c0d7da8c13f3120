// A block of a standing partial that a peer brought.
ghost use Rattle.std.specs.Prelude.{◌≤◌, ◌<◌, length};
ghost use Rattle.change_blocks.specs.Replacing.{TallyBeside};
ghost use Rattle.change_receipts.specs.Marking.{Written};

use crate::answers::Marked;
use change_blocks::{retally, set_block};
use change_state::Tally;
use memory_blocks::{BlockInfo, get_block, put_block};
use memory_layout::Shape;
use types::BlockState;

// Block j of the partial of piece i at place p, whose blocks have the numbers of `t`, was brought by a peer. One that was received before
// only changes its peer.
pub fn write_block(
    words: &mut [u64],
    cells: &mut [u16],
    s: Shape,
    i: usize,
    p: usize,
    j: usize,
    has_peer: bool,
    peer: u64,
    t: Tally,
    draws: &[u32],
    used: usize,
) -> Marked
    requires tally_beside { TallyBeside s words.old cells.old i p j t }
    requires i_lt_pieces { i < s.pieces }
    requires used_in_bounds { used ≤ length draws.now }
    ensures { Written s draws.now i p j has_peer peer t words.old cells.old used
        words.new cells.new result }
{
    let b = get_block(words, cells, s, p, j);
    if b.state >= BlockState::Writing as u16 {
        let kept = BlockInfo {
            has_peer,
            peer,
            ..b
        };
        put_block(words, cells, s, p, j, kept);
        return Marked {
            answer: false,
            used,
        };
    }
    let after = retally(t, b.state, BlockState::Writing as u16);
    let x = BlockInfo {
        state: BlockState::Writing as u16,
        num_peers: 0,
        has_peer,
        peer,
    };
    let next = set_block(words, cells, s, i, p, j, x, after, draws, used);
    Marked {
        answer: true,
        used: next,
    }
}
