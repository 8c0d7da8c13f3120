// How many copies of the torrent there are.
// Written by tools/publics.py, and not by hand.
ghost use Rattle.std.specs.Prelude.{◌≡◌, length};
ghost use Rattle.model.specs.ask.Questions.{of_picker, distributed_copies};
ghost use Rattle.model.specs.Calls.{question};
ghost use Rattle.picker_calls.specs.Calling.{answer_on};
ghost use Rattle.picker_calls.specs.Cores.{lending};
ghost use Rattle.picker_answers.specs.Admitting.{CoreAnswered};
ghost use Rattle.picker_questions.specs.Answers.{copies_answer};

use ask_columns::DistributedCopies;
use memory_records::{DownloadingPiece, live_records, unpack};
use picker_answers::admit_picker;
use types::Refusal;

fn distributed_copies_core(
    words: &[u64],
    cells: &[u16],
    rows: &[u32],
    lent: usize,
) -> Result<DistributedCopies, Refusal>
    requires { length rows.now ≡ 1536 }
    ensures { CoreAnswered words.now cells.now rows.now lent
        (of_picker distributed_copies) (copies_answer result) }
{
    let mut counts = [0; 1536];
    let picker = admit_picker(words, cells, rows, lent, &mut counts)?;
    Ok(ask_columns::distributed_copies(words, cells, picker.shape))
}

pub fn distributed_copies(
    words: &[u64],
    cells: &[u16],
    partials: &[DownloadingPiece],
) -> Result<DistributedCopies, Refusal>
    ensures { copies_answer result ≡ answer_on (lending words.now cells.now partials.now)
        (question (of_picker distributed_copies)) }
{
    let mut rows = [0; 1536];
    let live = live_records(words);
    let lent = unpack(partials, live, &mut rows);
    distributed_copies_core(words, cells, &rows, lent)
}
