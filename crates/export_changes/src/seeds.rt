// A whole-copy peer counted in or out.
// Written by tools/exports.py, and not by hand.
ghost use Rattle.picker_calls.specs.Calling.{Called};
ghost use Rattle.model.specs.Calls.{do_inc_refcount_all, do_dec_refcount_all};
ghost use Rattle.picker_calls.specs.Cores.{lending};
ghost use Rattle.picker_calls.specs.Outcomes.{outcome};
ghost use Rattle.export_answers.specs.Changes.{of_outcome};
ghost use Rattle.export_answers.specs.Back.{outcome_in};
ghost use Rattle.export_walks.specs.Saying.{Says};

use export_answers::{Changed, of_outcome};
use memory_records::DownloadingPiece;
use picker_seeds::{dec_refcount_all, inc_refcount_all};

// A seed comes: a peer that has every piece.
#[unsafe(no_mangle)]
pub extern "C" fn pp_inc_refcount_all(
    words: &mut [u64],
    cells: &mut [u16],
    partials: &mut [DownloadingPiece],
) -> Changed
    ensures { Says of_outcome outcome_in (λ o. Called (lending words.old cells.old partials.old) do_inc_refcount_all
        (lending words.new cells.new partials.new) (outcome o)) result }
{
    of_outcome(inc_refcount_all(words, cells, partials))
}

// A seed goes; where there is none, a peer of each piece.
#[unsafe(no_mangle)]
pub extern "C" fn pp_dec_refcount_all(
    words: &mut [u64],
    cells: &mut [u16],
    partials: &mut [DownloadingPiece],
) -> Changed
    ensures { Says of_outcome outcome_in (λ o. Called (lending words.old cells.old partials.old) do_dec_refcount_all
        (lending words.new cells.new partials.new) (outcome o)) result }
{
    of_outcome(dec_refcount_all(words, cells, partials))
}
