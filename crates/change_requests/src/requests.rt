// A block of a standing partial asked for once more.
ghost use Rattle.std.specs.Prelude.{◌+◌, ◌≤◌, ◌<◌, length};
ghost use Rattle.change_requests.specs.Requesting.{RequestBeside, Requested};

use change_blocks::{retally, set_block};
use change_direction::{make_piece_reverse, unreverse_piece};
use change_receipts::Marked;
use change_state::Tally;
use memory_blocks::{BlockInfo, get_block};
use memory_layout::Shape;
use types::BlockState;

// Block j of the partial of piece i at place p, whose blocks have the numbers of `t`, is asked for by a peer, `back` under REVERSE. One
// that was received is not asked for again.
pub fn request_block(
    words: &mut [u64],
    cells: &mut [u16],
    s: Shape,
    i: usize,
    p: usize,
    j: usize,
    back: bool,
    has_peer: bool,
    peer: u64,
    t: Tally,
    draws: &[u32],
    used: usize,
) -> Marked
    requires request_beside { RequestBeside s words.old cells.old i p j t }
    requires i_lt_pieces { i < s.pieces }
    requires used_in_bounds { used + 2 ≤ length draws.now }
    ensures { Requested s draws.now i p j back has_peer peer t words.old cells.old used
        words.new cells.new result }
{
    let b = get_block(words, cells, s, p, j);
    if b.state >= BlockState::Writing as u16 {
        return Marked {
            answer: false,
            used,
        };
    }
    let after = retally(t, b.state, BlockState::Requested as u16);
    let x = BlockInfo {
        state: BlockState::Requested as u16,
        num_peers: b.num_peers + 1,
        has_peer,
        peer,
    };
    let turned = make_piece_reverse(words, cells, s, i, back, t.requested, draws, used);
    let next = set_block(words, cells, s, i, p, j, x, after, draws, turned);
    let last = unreverse_piece(words, cells, s, i, back, draws, next);
    Marked {
        answer: true,
        used: last,
    }
}
