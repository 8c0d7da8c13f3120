// Questions of `ask_columns` for callers in C and Rust, each with what it asks and answers.
// Written by tools/asks.py, and not by hand.
ghost use Rattle.std.specs.Prelude.{◌≤◌, length};
ghost use Rattle.model.specs.ask.Questions.{list_picker, get_availability_vec, piece_priorities};
ghost use Rattle.memory_layout.specs.Standing.{StandsBeside};
ghost use Rattle.ask_columns.specs.Filled.{Told};
ghost use Rattle.link_questions.specs.Lending.{shaped};

use link_lists::Geometry;
use memory_layout::Shape;

#[unsafe(no_mangle)]
pub extern "C" fn aq_get_availability_vec(
    words: &[u64],
    cells: &[u16],
    g: Geometry,
    out: &mut [u16],
)
    requires stands_beside { StandsBeside (shaped g) words.now cells.now }
    requires pieces_in_bounds { g.pieces ≤ length out.old }
    ensures { Told (shaped g) words.now cells.now (λ d. list_picker d get_availability_vec)
        out.old out.new }
{
    let s = Shape::from(g);
    ask_columns::get_availability_vec(words, cells, s, out);
}

#[unsafe(no_mangle)]
pub extern "C" fn aq_piece_priorities(words: &[u64], cells: &[u16], g: Geometry, out: &mut [u16])
    requires stands_beside { StandsBeside (shaped g) words.now cells.now }
    requires pieces_in_bounds { g.pieces ≤ length out.old }
    ensures { Told (shaped g) words.now cells.now (λ d. list_picker d piece_priorities)
        out.old out.new }
{
    let s = Shape::from(g);
    ask_columns::piece_priorities(words, cells, s, out);
}
