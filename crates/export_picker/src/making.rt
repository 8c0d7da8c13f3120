// A new picker.
// Written by tools/exports.py, and not by hand.
ghost use Rattle.picker_calls.specs.Starting.{NewCalled};
ghost use Rattle.picker_calls.specs.Cores.{lending};
ghost use Rattle.picker_images.specs.Answers.{why_not};
ghost use Rattle.export_answers.specs.Replies.{of_making};
ghost use Rattle.export_answers.specs.Back.{making_in};
ghost use Rattle.export_walks.specs.Saying.{Says};

use export_answers::{Answered, of_making};
use memory_records::DownloadingPiece;
use picker_images::new;

// A picker of this geometry, whatever the buffers held.
#[unsafe(no_mangle)]
pub extern "C" fn pp_new(
    words: &mut [u64],
    cells: &mut [u16],
    partials: &mut [DownloadingPiece],
    total_size: i64,
    piece_size: i32,
) -> Answered
    ensures { Says of_making making_in (λ o. NewCalled (lending words.old cells.old partials.old) total_size piece_size
        (lending words.new cells.new partials.new) (why_not o)) result }
{
    of_making(new(words, cells, partials, total_size, piece_size))
}
