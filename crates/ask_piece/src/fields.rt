// The fields of a piece.
ghost use Rattle.std.specs.Prelude.{◌<◌};
ghost use Rattle.model.specs.ask.Questions.{reply_piece, one, flag, pad_bytes_in_piece, is_downloading, is_piece_flushed, piece_priority};
ghost use Rattle.model.specs.ask.Questions.{peer_count, download_state};
ghost use Rattle.memory_layout.specs.Bounds.{WordsSpan, CellsSpan};
ghost use Rattle.memory_fields.specs.Reading.{CellsSay, WordsSay};

use memory_layout::Shape;

pub fn pad_bytes_in_piece(words: &[u64], s: Shape, i: usize) -> u64
    requires words_span { WordsSpan s words.now }
    requires i_lt_pieces { i < s.pieces }
    ensures { WordsSay s words.now (λ d. reply_piece d i pad_bytes_in_piece) (one result) }
{
    memory_fields::pad_bytes(words, s, i)
}

// The peers that have the piece, without the seeds.
pub fn peer_count(cells: &[u16], s: Shape, i: usize) -> u16
    requires cells_span { CellsSpan s cells.now }
    requires i_lt_pieces { i < s.pieces }
    ensures { CellsSay s cells.now (λ d. reply_piece d i peer_count) (one result) }
{
    memory_fields::peer_count(cells, s, i)
}

pub fn piece_priority(cells: &[u16], s: Shape, i: usize) -> u16
    requires cells_span { CellsSpan s cells.now }
    requires i_lt_pieces { i < s.pieces }
    ensures { CellsSay s cells.now (λ d. reply_piece d i piece_priority) (one result) }
{
    memory_fields::priority(cells, s, i)
}

// The number of the piece's state.
pub fn download_state(cells: &[u16], s: Shape, i: usize) -> u16
    requires cells_span { CellsSpan s cells.now }
    requires i_lt_pieces { i < s.pieces }
    ensures { CellsSay s cells.now (λ d. reply_piece d i download_state) (one result) }
{
    memory_fields::state(cells, s, i)
}

pub fn is_piece_flushed(cells: &[u16], s: Shape, i: usize) -> bool
    requires cells_span { CellsSpan s cells.now }
    requires i_lt_pieces { i < s.pieces }
    ensures { CellsSay s cells.now (λ d. reply_piece d i is_piece_flushed) (flag result) }
{
    memory_fields::flushed(cells, s, i)
}

// Whether the piece is in a queue: in any state but Open.
pub fn is_downloading(cells: &[u16], s: Shape, i: usize) -> bool
    requires cells_span { CellsSpan s cells.now }
    requires i_lt_pieces { i < s.pieces }
    ensures { CellsSay s cells.now (λ d. reply_piece d i is_downloading) (flag result) }
{
    memory_fields::state(cells, s, i) != 4
}
