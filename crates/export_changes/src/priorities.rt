// A priority set.
// Written by tools/exports.py, and not by hand.
ghost use Rattle.picker_calls.specs.Calling.{Called};
ghost use Rattle.model.specs.Calls.{do_set_piece_priority};
ghost use Rattle.picker_calls.specs.Cores.{lending};
ghost use Rattle.types.specs.Piece.{number_of};
ghost use Rattle.picker_calls.specs.Outcomes.{outcome};
ghost use Rattle.export_arguments.specs.Arguments.{priority_of};
ghost use Rattle.export_answers.specs.Changes.{of_outcome};
ghost use Rattle.export_answers.specs.Back.{outcome_in};
ghost use Rattle.export_walks.specs.Saying.{Says};

use export_answers::{Changed, of_outcome};
use export_arguments::PriorityOf;
use memory_records::DownloadingPiece;
use picker_flags::set_piece_priority;

// The piece has this priority from here on. Answers whether it turned from or to 0, and the draws used.
#[unsafe(no_mangle)]
pub extern "C" fn pp_set_piece_priority(
    words: &mut [u64],
    cells: &mut [u16],
    partials: &mut [DownloadingPiece],
    draws: &[u32],
    new: PriorityOf,
) -> Changed
    ensures { Says of_outcome outcome_in (λ o. Called (lending words.old cells.old partials.old)
        (do_set_piece_priority (number_of (priority_of new).piece.0) (priority_of new).priority.0 draws.now)
        (lending words.new cells.new partials.new) (outcome o)) result }
{
    of_outcome(set_piece_priority(
        words,
        cells,
        partials,
        draws,
        export_arguments::priority_of(new),
    ))
}
