// Questions of `ask_block` for callers in C and Rust, each with what it asks and answers.
// Written by tools/asks.py, and not by hand.
ghost use Rattle.std.specs.Prelude.{◌≡◌, ◌<◌};
ghost use Rattle.memory_layout.specs.Decode.{blocks_of};
ghost use Rattle.memory_rows.specs.Lookup.{picker_in};
ghost use Rattle.ask_picker.specs.Asked.{Asked};
ghost use Rattle.model.specs.ask.Questions.{reply, of_block, get_downloader, block_peer};
ghost use Rattle.ask_block.specs.Blocks.{peer_reply};
ghost use Rattle.link_piece_questions.specs.Lending.{shaped};
ghost use Rattle.link_piece_questions.specs.Answers.{peer_told};

use crate::answers::Told;
use link_lists::Geometry;
use memory_layout::Shape;

#[unsafe(no_mangle)]
pub extern "C" fn aq_get_downloader(
    words: &[u64],
    cells: &[u16],
    rows: &[u32],
    live: usize,
    g: Geometry,
    i: usize,
    j: usize,
) -> Told
    requires asked { Asked (shaped g) live rows.now words.now cells.now }
    requires i_lt_pieces { (i < g.pieces) × (j < blocks_of words.now i) }
    ensures { peer_reply (peer_told result)
        ≡ reply (picker_in live rows.now words.now cells.now) (of_block get_downloader i j) }
{
    let s = Shape::from(g);
    Told::from(ask_block::get_downloader(words, cells, rows, live, s, i, j))
}

#[unsafe(no_mangle)]
pub extern "C" fn aq_block_peer(
    words: &[u64],
    cells: &[u16],
    rows: &[u32],
    live: usize,
    g: Geometry,
    i: usize,
    j: usize,
) -> Told
    requires asked { Asked (shaped g) live rows.now words.now cells.now }
    requires i_lt_pieces { (i < g.pieces) × (j < blocks_of words.now i) }
    ensures { peer_reply (peer_told result)
        ≡ reply (picker_in live rows.now words.now cells.now) (of_block block_peer i j) }
{
    let s = Shape::from(g);
    Told::from(ask_block::block_peer(words, cells, rows, live, s, i, j))
}
