// Block j of place p.
ghost use Rattle.std.specs.Prelude.{◌<◌, ◌≤◌};
ghost use Rattle.memory_layout.specs.Bounds.{CellsSpan, Spans};
ghost use Rattle.memory_blocks.specs.Blocks.{BlockRead, BlockStored, BlockFresh};

use crate::info::{BlockInfo, state_number};
use memory_layout::{Shape, block_cell, peer_word, set_block_cell, set_peer_word};

pub fn get_block(words: &[u64], cells: &[u16], s: Shape, p: usize, j: usize) -> BlockInfo
    requires spans { Spans s words.now cells.now }
    requires p_lt_places { (p < s.places) × (j < s.blocks) }
    ensures { BlockRead s words.now cells.now p j result }
{
    let state = state_number(block_cell(cells, s, 0, p, j));
    let num_peers = block_cell(cells, s, 1, p, j);
    let has_peer = block_cell(cells, s, 2, p, j) == 1;
    let peer = peer_word(words, s, p, j);
    BlockInfo {
        state,
        num_peers,
        has_peer,
        peer,
    }
}

pub fn put_block(words: &mut [u64], cells: &mut [u16], s: Shape, p: usize, j: usize, x: BlockInfo)
    requires spans { Spans s words.old cells.old }
    requires p_lt_places { (p < s.places) × (j < s.blocks) }
    requires state_bound { x.state ≤ 3 }
    ensures { BlockStored s words.old cells.old words.new cells.new p j x }
{
    let has = u16::from(x.has_peer);
    set_block_cell(cells, s, 0, p, j, x.state);
    set_block_cell(cells, s, 1, p, j, x.num_peers);
    set_block_cell(cells, s, 2, p, j, has);
    set_peer_word(words, s, p, j, x.peer);
}

// A block that nobody asked for, in a state: no peer, so that the word of the peer is left.
pub fn fresh_block(cells: &mut [u16], s: Shape, p: usize, j: usize, state: u16)
    requires cells_span { CellsSpan s cells.old }
    requires p_lt_places { (p < s.places) × (j < s.blocks) }
    requires state_bound { state ≤ 3 }
    ensures { BlockFresh s cells.old cells.new p j state }
{
    set_block_cell(cells, s, 0, p, j, state);
    set_block_cell(cells, s, 1, p, j, 0);
    set_block_cell(cells, s, 2, p, j, 0);
}
