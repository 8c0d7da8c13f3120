// Questions of `ask_partial` for callers in C and Rust, each with what it asks and answers.
// Written by tools/asks.py, and not by hand.
ghost use Rattle.std.specs.Prelude.{◌≡◌, ◌<◌};
ghost use Rattle.model.specs.ask.Questions.{reply_piece, flag, is_piece_finished, piece_info};
ghost use Rattle.memory_rows.specs.Lookup.{picker_in};
ghost use Rattle.ask_partial.specs.Info.{info_reply, AskedCounts};
ghost use Rattle.link_piece_questions.specs.Lending.{shaped};

use ask_partial::PieceInfo;
use link_lists::Geometry;
use memory_layout::Shape;

#[unsafe(no_mangle)]
pub extern "C" fn aq_piece_info(
    words: &[u64],
    cells: &[u16],
    rows: &[u32],
    live: usize,
    counts: &[u16],
    g: Geometry,
    i: usize,
) -> PieceInfo
    requires asked_counts { AskedCounts (shaped g) live rows.now counts.now words.now cells.now }
    requires i_lt_pieces { i < g.pieces }
    ensures { info_reply result ≡ reply_piece (picker_in live rows.now words.now cells.now) i piece_info }
{
    let s = Shape::from(g);
    ask_partial::piece_info(words, cells, rows, live, counts, s, i)
}

#[unsafe(no_mangle)]
pub extern "C" fn aq_is_piece_finished(
    words: &[u64],
    cells: &[u16],
    rows: &[u32],
    live: usize,
    counts: &[u16],
    g: Geometry,
    i: usize,
) -> bool
    requires asked_counts { AskedCounts (shaped g) live rows.now counts.now words.now cells.now }
    requires i_lt_pieces { i < g.pieces }
    ensures { flag result
        ≡ reply_piece (picker_in live rows.now words.now cells.now) i is_piece_finished }
{
    let s = Shape::from(g);
    ask_partial::is_piece_finished(words, cells, rows, live, counts, s, i)
}
