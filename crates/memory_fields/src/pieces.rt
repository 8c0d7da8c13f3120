// The fields of a piece, by its place among the pieces.
ghost use Rattle.std.specs.Prelude.{◌≡◌, ◌<◌};
ghost use Rattle.types.specs.Queue.{queue_number};
ghost use Rattle.model.specs.State.{piece_at};
ghost use Rattle.memory_layout.specs.Decode.{queue_from};
ghost use Rattle.memory_layout.specs.Bounds.{WordsSpan, CellsSpan};
ghost use Rattle.memory_fields.specs.Reading.{CellsSay, WordsSay};

use memory_layout::{Shape, piece_cell, piece_word};

pub fn peer_count(cells: &[u16], s: Shape, i: usize) -> u16
    requires cells_span { CellsSpan s cells.now }
    requires i_lt_pieces { i < s.pieces }
    ensures { CellsSay s cells.now (λ d. (piece_at d i).peer_count) result }
{
    piece_cell(cells, s, 0, i)
}

// The number of the state that a cell means: a number that no state has is read as Open.
pub fn state_number(v: u16) -> u16
    ensures { result ≡ queue_number (queue_from v) }
{
    if v < 7 { v } else { 4 }
}

// The number of the piece's state.
pub fn state(cells: &[u16], s: Shape, i: usize) -> u16
    requires cells_span { CellsSpan s cells.now }
    requires i_lt_pieces { i < s.pieces }
    ensures { CellsSay s cells.now (λ d. queue_number (piece_at d i).state) result }
{
    let v = piece_cell(cells, s, 1, i);
    state_number(v)
}

pub fn priority(cells: &[u16], s: Shape, i: usize) -> u16
    requires cells_span { CellsSpan s cells.now }
    requires i_lt_pieces { i < s.pieces }
    ensures { CellsSay s cells.now (λ d. (piece_at d i).priority) result }
{
    piece_cell(cells, s, 2, i)
}

pub fn flushed(cells: &[u16], s: Shape, i: usize) -> bool
    requires cells_span { CellsSpan s cells.now }
    requires i_lt_pieces { i < s.pieces }
    ensures { CellsSay s cells.now (λ d. (piece_at d i).flushed) result }
{
    piece_cell(cells, s, 3, i) == 1
}

pub fn pad_bytes(words: &[u64], s: Shape, i: usize) -> u64
    requires words_span { WordsSpan s words.now }
    requires i_lt_pieces { i < s.pieces }
    ensures { WordsSay s words.now (λ d. (piece_at d i).pad_bytes) result }
{
    piece_word(words, s, 0, i)
}
