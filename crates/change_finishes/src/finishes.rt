// A block of a standing partial that is on disk now, and the flush that it can cause.
ghost use Rattle.std.specs.Prelude.{◌≤◌, ◌<◌, length};
ghost use Rattle.change_finishes.specs.Finishing.{FinishBeside, FinishedInfo, BlockFinished};

use change_blocks::{retally, set_block};
use change_closing::piece_flushed;
use change_returns::{Given, is_done};
use change_state::Tally;
use memory_blocks::{BlockInfo, get_block};
use memory_layout::Shape;
use memory_records::Edit;
use types::{BlockState, usize_to_u32};

// The block on disk: one that was being written keeps its peer where no peer brings the news.
fn finished_info(b: BlockInfo, has_peer: bool, peer: u64) -> BlockInfo
    ensures { FinishedInfo b has_peer peer result }
{
    if (b.state == BlockState::Writing as u16) & !has_peer {
        return BlockInfo {
            state: BlockState::Finished as u16,
            ..b
        };
    }
    BlockInfo {
        state: BlockState::Finished as u16,
        has_peer,
        peer,
        ..b
    }
}

// Block j of the partial of piece i at place p is on disk. The partial has these flags, its blocks the numbers of `t`, and so many of them
// were on disk before. A passed piece goes once all are, unless it is locked or being hashed.
pub fn finish_block(
    words: &mut [u64],
    cells: &mut [u16],
    s: Shape,
    i: usize,
    p: usize,
    j: usize,
    has_peer: bool,
    peer: u64,
    t: Tally,
    flags: u32,
    finished: u16,
    draws: &[u32],
    used: usize,
) -> Given
    requires finish_beside { FinishBeside s words.old cells.old i p j t flags finished }
    requires i_lt_pieces { i < s.pieces }
    requires used_in_bounds { used ≤ length draws.now }
    ensures { BlockFinished s draws.now i p j has_peer peer t flags finished words.old cells.old
        used words.new cells.new result.edit result.used }
{
    let b = get_block(words, cells, s, p, j);
    if b.state == BlockState::Finished as u16 {
        return Given {
            edit: Edit::Keep,
            used,
        };
    }
    let after = retally(t, b.state, BlockState::Finished as u16);
    let x = finished_info(b, has_peer, peer);
    let next = set_block(words, cells, s, i, p, j, x, after, draws, used);
    if is_done(t.blocks, finished + 1, flags) {
        piece_flushed(words, cells, s, i);
        return Given {
            edit: Edit::Remove(usize_to_u32(i)),
            used: next,
        };
    }
    Given {
        edit: Edit::Keep,
        used: next,
    }
}
