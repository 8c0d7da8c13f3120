// A block marked as downloading.
// Written by tools/exports.py, and not by hand.
ghost use Rattle.picker_calls.specs.Calling.{Called};
ghost use Rattle.picker_blocks.specs.Arguments.{downloading};
ghost use Rattle.picker_calls.specs.Cores.{lending};
ghost use Rattle.picker_calls.specs.Outcomes.{outcome};
ghost use Rattle.export_arguments.specs.Arguments.{requested_block};
ghost use Rattle.export_answers.specs.Changes.{of_outcome};
ghost use Rattle.export_answers.specs.Back.{outcome_in};
ghost use Rattle.export_walks.specs.Saying.{Says};

use export_answers::{Changed, of_outcome};
use export_arguments::RequestedBlock;
use memory_records::DownloadingPiece;
use picker_requests::mark_as_downloading;

// The peer is asked for the block. Answers whether it was marked, and the draws used.
#[unsafe(no_mangle)]
pub extern "C" fn pp_mark_as_downloading(
    words: &mut [u64],
    cells: &mut [u16],
    partials: &mut [DownloadingPiece],
    draws: &[u32],
    request: RequestedBlock,
) -> Changed
    ensures { Says of_outcome outcome_in (λ o. Called (lending words.old cells.old partials.old)
        (downloading (requested_block request) draws.now) (lending words.new cells.new partials.new) (outcome o)) result }
{
    of_outcome(mark_as_downloading(
        words,
        cells,
        partials,
        draws,
        export_arguments::requested(request),
    ))
}
