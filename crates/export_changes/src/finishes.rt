// A block marked as finished.
// Written by tools/exports.py, and not by hand.
ghost use Rattle.picker_calls.specs.Calling.{Called};
ghost use Rattle.model.specs.Calls.{do_mark_as_finished};
ghost use Rattle.picker_calls.specs.Cores.{lending};
ghost use Rattle.picker_blocks.specs.Arguments.{on_block};
ghost use Rattle.picker_calls.specs.Outcomes.{outcome};
ghost use Rattle.export_arguments.specs.Arguments.{named_block};
ghost use Rattle.export_answers.specs.Changes.{of_outcome};
ghost use Rattle.export_answers.specs.Back.{outcome_in};
ghost use Rattle.export_walks.specs.Saying.{Says};

use export_answers::{Changed, of_outcome};
use export_arguments::NamedBlock;
use memory_records::DownloadingPiece;
use picker_marks::mark_as_finished;

// The block, which the peer brought, is on disk. Answers the draws used.
#[unsafe(no_mangle)]
pub extern "C" fn pp_mark_as_finished(
    words: &mut [u64],
    cells: &mut [u16],
    partials: &mut [DownloadingPiece],
    draws: &[u32],
    named: NamedBlock,
) -> Changed
    ensures { Says of_outcome outcome_in (λ o. Called (lending words.old cells.old partials.old)
        (on_block do_mark_as_finished (named_block named) draws.now) (lending words.new cells.new partials.new) (outcome o)) result }
{
    of_outcome(mark_as_finished(
        words,
        cells,
        partials,
        draws,
        export_arguments::named(named),
    ))
}
