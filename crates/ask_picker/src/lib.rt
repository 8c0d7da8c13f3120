// The questions of the picker that its geometry and its head answer. Each answer is the definition's, whatever stands in the buffers
// that are not read.
#![tactic(auto)]

ghost use Rattle.model.specs.ask.Questions.{reply_picker, one, flag, num_pieces, block_size, ask_blocks_per_piece, cursor?, reverse_cursor?};
ghost use Rattle.model.specs.ask.Questions.{num_seeds, get_download_queue_size, total_size, full_piece_size, dirty?};
ghost use Rattle.memory_layout.specs.Bounds.{WordsSpan};
ghost use Rattle.memory_fields.specs.Reading.{HeadSays};
ghost use Rattle.ask_picker.specs.Telling.{ShapeSays};

use memory_layout::{Shape, head_word};

pub fn num_pieces(s: Shape) -> usize
    ensures { ShapeSays s (λ d. reply_picker d num_pieces) (one result) }
{
    s.pieces
}

pub fn blocks_per_piece(s: Shape) -> usize
    ensures { ShapeSays s (λ d. reply_picker d ask_blocks_per_piece) (one result) }
{
    s.blocks
}

pub fn block_size(words: &[u64], s: Shape) -> u64
    requires { WordsSpan s words.now }
    ensures { HeadSays words.now (λ d. reply_picker d block_size) (one result) }
{
    geometry::block_size(head_word(words, 1))
}

pub fn total_size(words: &[u64], s: Shape) -> u64
    requires { WordsSpan s words.now }
    ensures { HeadSays words.now (λ d. reply_picker d total_size) (one result) }
{
    head_word(words, 0)
}

// The length of a whole piece.
pub fn full_piece_size(words: &[u64], s: Shape) -> u64
    requires { WordsSpan s words.now }
    ensures { HeadSays words.now (λ d. reply_picker d full_piece_size) (one result) }
{
    head_word(words, 1)
}

pub fn num_seeds(words: &[u64], s: Shape) -> u64
    requires { WordsSpan s words.now }
    ensures { HeadSays words.now (λ d. reply_picker d num_seeds) (one result) }
{
    memory_fields::seeds(words, s)
}

pub fn cursor(words: &[u64], s: Shape) -> u64
    requires { WordsSpan s words.now }
    ensures { HeadSays words.now (λ d. reply_picker d cursor?) (one result) }
{
    memory_fields::cursor(words, s)
}

pub fn reverse_cursor(words: &[u64], s: Shape) -> u64
    requires { WordsSpan s words.now }
    ensures { HeadSays words.now (λ d. reply_picker d reverse_cursor?) (one result) }
{
    memory_fields::reverse_cursor(words, s)
}

// Whether the list has to be rebuilt.
pub fn dirty(words: &[u64], s: Shape) -> bool
    requires { WordsSpan s words.now }
    ensures { HeadSays words.now (λ d. reply_picker d dirty?) (flag result) }
{
    memory_fields::is_dirty(words, s)
}

// How many partials stand.
pub fn get_download_queue_size(words: &[u64], s: Shape) -> usize
    requires { WordsSpan s words.now }
    ensures { HeadSays words.now (λ d. reply_picker d get_download_queue_size) (one result) }
{
    memory_fields::num_partials(words, s)
}
