// A picker read from an image.
// Written by tools/exports.py, and not by hand.
ghost use Rattle.picker_calls.specs.Starting.{ReadCalled};
ghost use Rattle.picker_calls.specs.Cores.{lending};
ghost use Rattle.picker_images.specs.Answers.{why_not};
ghost use Rattle.export_answers.specs.Replies.{of_making};
ghost use Rattle.export_answers.specs.Back.{making_in};
ghost use Rattle.export_walks.specs.Saying.{Says};

use export_answers::{Answered, of_making};
use memory_records::DownloadingPiece;
use picker_images::read_image;

// The picker of the image, whatever the buffers held.
#[unsafe(no_mangle)]
pub extern "C" fn pp_read_image(
    words: &mut [u64],
    cells: &mut [u16],
    partials: &mut [DownloadingPiece],
    bytes: &[u8],
) -> Answered
    ensures { Says of_making making_in (λ o. ReadCalled (lending words.old cells.old partials.old) bytes.now
        (lending words.new cells.new partials.new) (why_not o)) result }
{
    of_making(read_image(words, cells, partials, bytes))
}
