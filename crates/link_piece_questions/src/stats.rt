// Questions of `ask_piece` for callers in C and Rust, each with what it asks and answers.
// Written by tools/asks.py, and not by hand.
ghost use Rattle.std.specs.Prelude.{◌<◌};
ghost use Rattle.model.specs.ask.Questions.{reply_piece, one, get_availability, piece_stats};
ghost use Rattle.memory_layout.specs.Standing.{StandsBeside};
ghost use Rattle.ask_picker.specs.Telling.{BothSay};
ghost use Rattle.ask_piece.specs.Stats.{stats_reply};
ghost use Rattle.link_piece_questions.specs.Lending.{shaped};

use ask_piece::PieceStats;
use link_lists::Geometry;
use memory_layout::Shape;

#[unsafe(no_mangle)]
pub extern "C" fn aq_get_availability(words: &[u64], cells: &[u16], g: Geometry, i: usize) -> u64
    requires stands_beside { StandsBeside (shaped g) words.now cells.now }
    requires i_lt_pieces { i < g.pieces }
    ensures { BothSay (shaped g) words.now cells.now (λ d. reply_piece d i get_availability) (one result) }
{
    let s = Shape::from(g);
    ask_piece::get_availability(words, cells, s, i)
}

#[unsafe(no_mangle)]
pub extern "C" fn aq_piece_stats(words: &[u64], cells: &[u16], g: Geometry, i: usize) -> PieceStats
    requires stands_beside { StandsBeside (shaped g) words.now cells.now }
    requires i_lt_pieces { i < g.pieces }
    ensures { BothSay (shaped g) words.now cells.now (λ d. reply_piece d i piece_stats) (stats_reply result) }
{
    let s = Shape::from(g);
    ask_piece::piece_stats(words, cells, s, i)
}
