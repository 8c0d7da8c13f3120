// Questions of `ask_piece` for callers in C and Rust, each with what it asks and answers.
// Written by tools/asks.py, and not by hand.
ghost use Rattle.std.specs.Prelude.{◌<◌};
ghost use Rattle.model.specs.ask.Questions.{reply_piece, one, flag, pad_bytes_in_piece, is_downloading, is_piece_flushed, piece_priority};
ghost use Rattle.model.specs.ask.Questions.{peer_count, download_state};
ghost use Rattle.memory_layout.specs.Bounds.{WordsSpan, CellsSpan};
ghost use Rattle.memory_fields.specs.Reading.{CellsSay, WordsSay};
ghost use Rattle.link_piece_questions.specs.Lending.{shaped};

use link_lists::Geometry;
use memory_layout::Shape;

#[unsafe(no_mangle)]
pub extern "C" fn aq_pad_bytes_in_piece(words: &[u64], g: Geometry, i: usize) -> u64
    requires words_span { WordsSpan (shaped g) words.now }
    requires i_lt_pieces { i < g.pieces }
    ensures { WordsSay (shaped g) words.now (λ d. reply_piece d i pad_bytes_in_piece) (one result) }
{
    let s = Shape::from(g);
    ask_piece::pad_bytes_in_piece(words, s, i)
}

#[unsafe(no_mangle)]
pub extern "C" fn aq_peer_count(cells: &[u16], g: Geometry, i: usize) -> u16
    requires cells_span { CellsSpan (shaped g) cells.now }
    requires i_lt_pieces { i < g.pieces }
    ensures { CellsSay (shaped g) cells.now (λ d. reply_piece d i peer_count) (one result) }
{
    let s = Shape::from(g);
    ask_piece::peer_count(cells, s, i)
}

#[unsafe(no_mangle)]
pub extern "C" fn aq_piece_priority(cells: &[u16], g: Geometry, i: usize) -> u16
    requires cells_span { CellsSpan (shaped g) cells.now }
    requires i_lt_pieces { i < g.pieces }
    ensures { CellsSay (shaped g) cells.now (λ d. reply_piece d i piece_priority) (one result) }
{
    let s = Shape::from(g);
    ask_piece::piece_priority(cells, s, i)
}

#[unsafe(no_mangle)]
pub extern "C" fn aq_download_state(cells: &[u16], g: Geometry, i: usize) -> u16
    requires cells_span { CellsSpan (shaped g) cells.now }
    requires i_lt_pieces { i < g.pieces }
    ensures { CellsSay (shaped g) cells.now (λ d. reply_piece d i download_state) (one result) }
{
    let s = Shape::from(g);
    ask_piece::download_state(cells, s, i)
}

#[unsafe(no_mangle)]
pub extern "C" fn aq_is_piece_flushed(cells: &[u16], g: Geometry, i: usize) -> bool
    requires cells_span { CellsSpan (shaped g) cells.now }
    requires i_lt_pieces { i < g.pieces }
    ensures { CellsSay (shaped g) cells.now (λ d. reply_piece d i is_piece_flushed) (flag result) }
{
    let s = Shape::from(g);
    ask_piece::is_piece_flushed(cells, s, i)
}

#[unsafe(no_mangle)]
pub extern "C" fn aq_is_downloading(cells: &[u16], g: Geometry, i: usize) -> bool
    requires cells_span { CellsSpan (shaped g) cells.now }
    requires i_lt_pieces { i < g.pieces }
    ensures { CellsSay (shaped g) cells.now (λ d. reply_piece d i is_downloading) (flag result) }
{
    let s = Shape::from(g);
    ask_piece::is_downloading(cells, s, i)
}
