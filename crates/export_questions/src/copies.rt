// Distributed copies.
// Written by tools/exports.py, and not by hand.
ghost use Rattle.picker_calls.specs.Calling.{answer_on};
ghost use Rattle.picker_questions.specs.Answers.{copies_answer};
ghost use Rattle.model.specs.ask.Questions.{distributed_copies, of_picker};
ghost use Rattle.picker_calls.specs.Cores.{lending};
ghost use Rattle.model.specs.Calls.{question};
ghost use Rattle.std.specs.Prelude.{◌≡◌};
ghost use Rattle.export_answers.specs.Records.{of_copies};
ghost use Rattle.export_answers.specs.Back.{copies_in};
ghost use Rattle.export_walks.specs.Saying.{Says};

use export_answers::{Copied, of_copies};
use memory_records::DownloadingPiece;
use picker_questions::distributed_copies;

#[unsafe(no_mangle)]
pub extern "C" fn pp_distributed_copies(
    words: &[u64],
    cells: &[u16],
    partials: &[DownloadingPiece],
) -> Copied
    ensures { Says of_copies copies_in (λ o. copies_answer o ≡ answer_on (lending words.now cells.now partials.now)
        (question (of_picker distributed_copies))) result }
{
    of_copies(distributed_copies(words, cells, partials))
}
