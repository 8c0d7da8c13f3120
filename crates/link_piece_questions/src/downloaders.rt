// Questions of `ask_records` for callers in C and Rust, each with what it asks and answers.
// Written by tools/asks.py, and not by hand.
ghost use Rattle.std.specs.Prelude.{◌≡◌, ◌*◌, ◌≤◌, ◌<◌, length};
ghost use Rattle.model.specs.ask.Questions.{list_piece, get_downloaders};
ghost use Rattle.memory_rows.specs.Lookup.{picker_in};
ghost use Rattle.ask_picker.specs.Asked.{Asked};
ghost use Rattle.ask_records.specs.Records.{peer_read, told_reply, Written};
ghost use Rattle.link_piece_questions.specs.Lending.{shaped};

use link_lists::Geometry;
use memory_layout::Shape;

#[unsafe(no_mangle)]
pub extern "C" fn aq_get_downloaders(
    words: &[u64],
    cells: &[u16],
    rows: &[u32],
    live: usize,
    g: Geometry,
    i: usize,
    out: &mut [u64],
) -> usize
    requires asked { Asked (shaped g) live rows.now words.now cells.now }
    requires i_lt_pieces { i < g.pieces }
    requires blocks_in_bounds { 2 * g.blocks ≤ length out.old }
    ensures out_after { told_reply 2 peer_read result out.new
        ≡ list_piece (picker_in live rows.now words.now cells.now) i get_downloaders }
    ensures written { Written 2 result out.old out.new }
{
    let s = Shape::from(g);
    ask_records::get_downloaders(words, cells, rows, live, s, i, out)
}
