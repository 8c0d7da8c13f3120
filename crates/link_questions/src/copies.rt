// Questions of `ask_columns` for callers in C and Rust, each with what it asks and answers.
// Written by tools/asks.py, and not by hand.
ghost use Rattle.model.specs.ask.Questions.{reply_picker, distributed_copies};
ghost use Rattle.memory_layout.specs.Standing.{StandsBeside};
ghost use Rattle.ask_picker.specs.Telling.{BothSay};
ghost use Rattle.ask_columns.specs.Copies.{copies_reply};
ghost use Rattle.link_questions.specs.Lending.{shaped};

use ask_columns::DistributedCopies;
use link_lists::Geometry;
use memory_layout::Shape;

#[unsafe(no_mangle)]
pub extern "C" fn aq_distributed_copies(
    words: &[u64],
    cells: &[u16],
    g: Geometry,
) -> DistributedCopies
    requires { StandsBeside (shaped g) words.now cells.now }
    ensures { BothSay (shaped g) words.now cells.now (λ d. reply_picker d distributed_copies) (copies_reply result) }
{
    let s = Shape::from(g);
    ask_columns::distributed_copies(words, cells, s)
}
