// Questions of `ask_records` for callers in C and Rust, each with what it asks and answers.
// Written by tools/asks.py, and not by hand.
ghost use Rattle.std.specs.Prelude.{◌≡◌, ◌*◌, ◌≤◌, ◌<◌, length};
ghost use Rattle.model.specs.ask.Questions.{list_piece, blocks_for_piece};
ghost use Rattle.memory_rows.specs.Lookup.{picker_in};
ghost use Rattle.ask_picker.specs.Asked.{Asked};
ghost use Rattle.ask_records.specs.Records.{Written};
ghost use Rattle.ask_records.specs.Answers.{records_in, blocks_reply};
ghost use Rattle.link_piece_questions.specs.Lending.{shaped};
ghost use Rattle.link_piece_questions.specs.Answers.{records_told};

use crate::answers::Told;
use link_lists::Geometry;
use memory_layout::Shape;

#[unsafe(no_mangle)]
pub extern "C" fn aq_blocks_for_piece(
    words: &[u64],
    cells: &[u16],
    rows: &[u32],
    live: usize,
    g: Geometry,
    i: usize,
    out: &mut [u64],
) -> Told
    requires asked { Asked (shaped g) live rows.now words.now cells.now }
    requires i_lt_pieces { i < g.pieces }
    requires blocks_in_bounds { 4 * g.blocks ≤ length out.old }
    ensures result_after { blocks_reply out.new (records_told result)
        ≡ list_piece (picker_in live rows.now words.now cells.now) i blocks_for_piece }
    ensures written { Written 4 (records_in (records_told result)) out.old out.new }
{
    let s = Shape::from(g);
    Told::from(ask_records::blocks_for_piece(words, cells, rows, live, s, i, out))
}
