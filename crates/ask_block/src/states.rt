// The state of a block, and how many asked for it.
ghost use Rattle.std.specs.Prelude.{◌≡◌, ◌<◌};
ghost use Rattle.memory_layout.specs.Decode.{blocks_of};
ghost use Rattle.memory_rows.specs.Lookup.{picker_in};
ghost use Rattle.ask_picker.specs.Asked.{Asked};
ghost use Rattle.model.specs.ask.Questions.{reply, of_block, one, flag, num_peers_block, is_requested, is_downloaded, is_finished_block};
ghost use Rattle.model.specs.ask.Questions.{block_state, block_num_peers};
ghost use Rattle.ask_block.specs.Blocks.{number_reply};

use crate::find::block_of;
use memory_fields::flushed;
use memory_layout::Shape;

// How many asked for the block: none where no partial stands.
pub fn num_peers_block(
    words: &[u64],
    cells: &[u16],
    rows: &[u32],
    live: usize,
    s: Shape,
    i: usize,
    j: usize,
) -> u16
    requires asked { Asked s live rows.now words.now cells.now }
    requires i_lt_pieces { (i < s.pieces) × (j < blocks_of words.now i) }
    ensures { one result
        ≡ reply (picker_in live rows.now words.now cells.now) (of_block num_peers_block i j) }
{
    let Some(x) = block_of(words, cells, rows, live, s, i, j) else {
        return 0;
    };
    x.num_peers
}

pub fn is_requested(
    words: &[u64],
    cells: &[u16],
    rows: &[u32],
    live: usize,
    s: Shape,
    i: usize,
    j: usize,
) -> bool
    requires asked { Asked s live rows.now words.now cells.now }
    requires i_lt_pieces { (i < s.pieces) × (j < blocks_of words.now i) }
    ensures { flag result
        ≡ reply (picker_in live rows.now words.now cells.now) (of_block is_requested i j) }
{
    let Some(x) = block_of(words, cells, rows, live, s, i, j) else {
        return false;
    };
    x.state == 1
}

// Whether the piece is flushed, or the block is being written or on disk.
pub fn is_downloaded(
    words: &[u64],
    cells: &[u16],
    rows: &[u32],
    live: usize,
    s: Shape,
    i: usize,
    j: usize,
) -> bool
    requires asked { Asked s live rows.now words.now cells.now }
    requires i_lt_pieces { (i < s.pieces) × (j < blocks_of words.now i) }
    ensures { flag result
        ≡ reply (picker_in live rows.now words.now cells.now) (of_block is_downloaded i j) }
{
    if flushed(cells, s, i) {
        return true;
    }
    let Some(x) = block_of(words, cells, rows, live, s, i, j) else {
        return false;
    };
    (x.state == 2) | (x.state == 3)
}

// Whether the piece is flushed, or the block is on disk.
pub fn is_finished_block(
    words: &[u64],
    cells: &[u16],
    rows: &[u32],
    live: usize,
    s: Shape,
    i: usize,
    j: usize,
) -> bool
    requires asked { Asked s live rows.now words.now cells.now }
    requires i_lt_pieces { (i < s.pieces) × (j < blocks_of words.now i) }
    ensures { flag result
        ≡ reply (picker_in live rows.now words.now cells.now) (of_block is_finished_block i j) }
{
    if flushed(cells, s, i) {
        return true;
    }
    let Some(x) = block_of(words, cells, rows, live, s, i, j) else {
        return false;
    };
    x.state == 3
}

// The number of the block's state.
pub fn block_state(
    words: &[u64],
    cells: &[u16],
    rows: &[u32],
    live: usize,
    s: Shape,
    i: usize,
    j: usize,
) -> Option<u16>
    requires asked { Asked s live rows.now words.now cells.now }
    requires i_lt_pieces { (i < s.pieces) × (j < blocks_of words.now i) }
    ensures { number_reply result
        ≡ reply (picker_in live rows.now words.now cells.now) (of_block block_state i j) }
{
    let x = block_of(words, cells, rows, live, s, i, j)?;
    Some(x.state)
}

pub fn block_num_peers(
    words: &[u64],
    cells: &[u16],
    rows: &[u32],
    live: usize,
    s: Shape,
    i: usize,
    j: usize,
) -> Option<u16>
    requires asked { Asked s live rows.now words.now cells.now }
    requires i_lt_pieces { (i < s.pieces) × (j < blocks_of words.now i) }
    ensures { number_reply result
        ≡ reply (picker_in live rows.now words.now cells.now) (of_block block_num_peers i j) }
{
    let x = block_of(words, cells, rows, live, s, i, j)?;
    Some(x.num_peers)
}
