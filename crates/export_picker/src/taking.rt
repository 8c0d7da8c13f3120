// The image of a picker.
// Written by tools/exports.py, and not by hand.
ghost use Rattle.picker_calls.specs.Starting.{ImageCalled};
ghost use Rattle.picker_images.specs.Answers.{image_answer};
ghost use Rattle.picker_calls.specs.Cores.{lending};
ghost use Rattle.export_answers.specs.Replies.{of_image};
ghost use Rattle.export_answers.specs.Back.{image_in};
ghost use Rattle.export_walks.specs.Saying.{Says};

use export_answers::{Answered, of_image};
use memory_records::DownloadingPiece;
use picker_images::take_image;

// The image of the picker in front of the bytes; those behind it stay. Answers how many it has.
#[unsafe(no_mangle)]
pub extern "C" fn pp_take_image(
    words: &[u64],
    cells: &[u16],
    partials: &[DownloadingPiece],
    bytes: &mut [u8],
) -> Answered
    ensures { Says of_image image_in (λ o. ImageCalled (lending words.now cells.now partials.now) bytes.old bytes.new (image_answer o))
        result }
{
    of_image(take_image(words, cells, partials, bytes))
}
