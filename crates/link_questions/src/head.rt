// Questions of `ask_picker` for callers in C and Rust, each with what it asks and answers.
// Written by tools/asks.py, and not by hand.
ghost use Rattle.model.specs.ask.Questions.{reply_picker, one, flag, num_pieces, block_size, ask_blocks_per_piece, cursor?, reverse_cursor?};
ghost use Rattle.model.specs.ask.Questions.{num_seeds, get_download_queue_size, total_size, full_piece_size, dirty?};
ghost use Rattle.memory_layout.specs.Bounds.{WordsSpan};
ghost use Rattle.memory_fields.specs.Reading.{HeadSays};
ghost use Rattle.ask_picker.specs.Telling.{ShapeSays};
ghost use Rattle.link_questions.specs.Lending.{shaped};

use link_lists::Geometry;
use memory_layout::Shape;

#[unsafe(no_mangle)]
pub extern "C" fn aq_num_pieces(g: Geometry) -> usize
    ensures { ShapeSays (shaped g) (λ d. reply_picker d num_pieces) (one result) }
{
    let s = Shape::from(g);
    ask_picker::num_pieces(s)
}

#[unsafe(no_mangle)]
pub extern "C" fn aq_blocks_per_piece(g: Geometry) -> usize
    ensures { ShapeSays (shaped g) (λ d. reply_picker d ask_blocks_per_piece) (one result) }
{
    let s = Shape::from(g);
    ask_picker::blocks_per_piece(s)
}

#[unsafe(no_mangle)]
pub extern "C" fn aq_block_size(words: &[u64], g: Geometry) -> u64
    requires { WordsSpan (shaped g) words.now }
    ensures { HeadSays words.now (λ d. reply_picker d block_size) (one result) }
{
    let s = Shape::from(g);
    ask_picker::block_size(words, s)
}

#[unsafe(no_mangle)]
pub extern "C" fn aq_total_size(words: &[u64], g: Geometry) -> u64
    requires { WordsSpan (shaped g) words.now }
    ensures { HeadSays words.now (λ d. reply_picker d total_size) (one result) }
{
    let s = Shape::from(g);
    ask_picker::total_size(words, s)
}

#[unsafe(no_mangle)]
pub extern "C" fn aq_full_piece_size(words: &[u64], g: Geometry) -> u64
    requires { WordsSpan (shaped g) words.now }
    ensures { HeadSays words.now (λ d. reply_picker d full_piece_size) (one result) }
{
    let s = Shape::from(g);
    ask_picker::full_piece_size(words, s)
}

#[unsafe(no_mangle)]
pub extern "C" fn aq_num_seeds(words: &[u64], g: Geometry) -> u64
    requires { WordsSpan (shaped g) words.now }
    ensures { HeadSays words.now (λ d. reply_picker d num_seeds) (one result) }
{
    let s = Shape::from(g);
    ask_picker::num_seeds(words, s)
}

#[unsafe(no_mangle)]
pub extern "C" fn aq_cursor(words: &[u64], g: Geometry) -> u64
    requires { WordsSpan (shaped g) words.now }
    ensures { HeadSays words.now (λ d. reply_picker d cursor?) (one result) }
{
    let s = Shape::from(g);
    ask_picker::cursor(words, s)
}

#[unsafe(no_mangle)]
pub extern "C" fn aq_reverse_cursor(words: &[u64], g: Geometry) -> u64
    requires { WordsSpan (shaped g) words.now }
    ensures { HeadSays words.now (λ d. reply_picker d reverse_cursor?) (one result) }
{
    let s = Shape::from(g);
    ask_picker::reverse_cursor(words, s)
}

#[unsafe(no_mangle)]
pub extern "C" fn aq_dirty(words: &[u64], g: Geometry) -> bool
    requires { WordsSpan (shaped g) words.now }
    ensures { HeadSays words.now (λ d. reply_picker d dirty?) (flag result) }
{
    let s = Shape::from(g);
    ask_picker::dirty(words, s)
}

#[unsafe(no_mangle)]
pub extern "C" fn aq_get_download_queue_size(words: &[u64], g: Geometry) -> usize
    requires { WordsSpan (shaped g) words.now }
    ensures { HeadSays words.now (λ d. reply_picker d get_download_queue_size) (one result) }
{
    let s = Shape::from(g);
    ask_picker::get_download_queue_size(words, s)
}
