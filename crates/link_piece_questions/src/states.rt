// Questions of `ask_block` for callers in C and Rust, each with what it asks and answers.
// Written by tools/asks.py, and not by hand.
ghost use Rattle.std.specs.Prelude.{◌≡◌, ◌<◌};
ghost use Rattle.memory_layout.specs.Decode.{blocks_of};
ghost use Rattle.memory_rows.specs.Lookup.{picker_in};
ghost use Rattle.ask_picker.specs.Asked.{Asked};
ghost use Rattle.model.specs.ask.Questions.{reply, of_block, one, flag, num_peers_block, is_requested, is_downloaded, is_finished_block};
ghost use Rattle.model.specs.ask.Questions.{block_state, block_num_peers};
ghost use Rattle.ask_block.specs.Blocks.{number_reply};
ghost use Rattle.link_piece_questions.specs.Lending.{shaped};
ghost use Rattle.link_piece_questions.specs.Answers.{number_told};

use crate::answers::Told;
use link_lists::Geometry;
use memory_layout::Shape;

#[unsafe(no_mangle)]
pub extern "C" fn aq_num_peers_block(
    words: &[u64],
    cells: &[u16],
    rows: &[u32],
    live: usize,
    g: Geometry,
    i: usize,
    j: usize,
) -> u16
    requires asked { Asked (shaped g) live rows.now words.now cells.now }
    requires i_lt_pieces { (i < g.pieces) × (j < blocks_of words.now i) }
    ensures { one result
        ≡ reply (picker_in live rows.now words.now cells.now) (of_block num_peers_block i j) }
{
    let s = Shape::from(g);
    ask_block::num_peers_block(words, cells, rows, live, s, i, j)
}

#[unsafe(no_mangle)]
pub extern "C" fn aq_is_requested(
    words: &[u64],
    cells: &[u16],
    rows: &[u32],
    live: usize,
    g: Geometry,
    i: usize,
    j: usize,
) -> bool
    requires asked { Asked (shaped g) live rows.now words.now cells.now }
    requires i_lt_pieces { (i < g.pieces) × (j < blocks_of words.now i) }
    ensures { flag result
        ≡ reply (picker_in live rows.now words.now cells.now) (of_block is_requested i j) }
{
    let s = Shape::from(g);
    ask_block::is_requested(words, cells, rows, live, s, i, j)
}

#[unsafe(no_mangle)]
pub extern "C" fn aq_is_downloaded(
    words: &[u64],
    cells: &[u16],
    rows: &[u32],
    live: usize,
    g: Geometry,
    i: usize,
    j: usize,
) -> bool
    requires asked { Asked (shaped g) live rows.now words.now cells.now }
    requires i_lt_pieces { (i < g.pieces) × (j < blocks_of words.now i) }
    ensures { flag result
        ≡ reply (picker_in live rows.now words.now cells.now) (of_block is_downloaded i j) }
{
    let s = Shape::from(g);
    ask_block::is_downloaded(words, cells, rows, live, s, i, j)
}

#[unsafe(no_mangle)]
pub extern "C" fn aq_is_finished_block(
    words: &[u64],
    cells: &[u16],
    rows: &[u32],
    live: usize,
    g: Geometry,
    i: usize,
    j: usize,
) -> bool
    requires asked { Asked (shaped g) live rows.now words.now cells.now }
    requires i_lt_pieces { (i < g.pieces) × (j < blocks_of words.now i) }
    ensures { flag result
        ≡ reply (picker_in live rows.now words.now cells.now) (of_block is_finished_block i j) }
{
    let s = Shape::from(g);
    ask_block::is_finished_block(words, cells, rows, live, s, i, j)
}

#[unsafe(no_mangle)]
pub extern "C" fn aq_block_state(
    words: &[u64],
    cells: &[u16],
    rows: &[u32],
    live: usize,
    g: Geometry,
    i: usize,
    j: usize,
) -> Told
    requires asked { Asked (shaped g) live rows.now words.now cells.now }
    requires i_lt_pieces { (i < g.pieces) × (j < blocks_of words.now i) }
    ensures { number_reply (number_told result)
        ≡ reply (picker_in live rows.now words.now cells.now) (of_block block_state i j) }
{
    let s = Shape::from(g);
    Told::from(ask_block::block_state(words, cells, rows, live, s, i, j))
}

#[unsafe(no_mangle)]
pub extern "C" fn aq_block_num_peers(
    words: &[u64],
    cells: &[u16],
    rows: &[u32],
    live: usize,
    g: Geometry,
    i: usize,
    j: usize,
) -> Told
    requires asked { Asked (shaped g) live rows.now words.now cells.now }
    requires i_lt_pieces { (i < g.pieces) × (j < blocks_of words.now i) }
    ensures { number_reply (number_told result)
        ≡ reply (picker_in live rows.now words.now cells.now) (of_block block_num_peers i j) }
{
    let s = Shape::from(g);
    Told::from(ask_block::block_num_peers(words, cells, rows, live, s, i, j))
}
