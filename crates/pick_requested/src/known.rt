// What a pick has to know of a partial: without a run, and not on parole, nothing of its blocks but their states.
ghost use Rattle.std.specs.Prelude.{◌≤◌, ◌<◌};
ghost use Rattle.memory_layout.specs.Bounds.{Spans};
ghost use Rattle.pick_requested.specs.Known.{Known};

use crate::requested::{RequestedFrom, requested_from};
use memory_layout::Shape;
use pick_state::{PickNumbers, PickRequest, contiguous_is_zero};
use types::PickerOptions;

pub fn known_of(
    words: &[u64],
    cells: &[u16],
    s: Shape,
    place: usize,
    many: usize,
    q: PickRequest,
    t: PickNumbers,
) -> RequestedFrom
    requires spans { Spans s words.now cells.now }
    requires place_lt_places { (place < s.places) × (many ≤ s.blocks) }
    ensures { Known words.now cells.now s place many q t result }
{
    let parole = q.options.contains(PickerOptions::ON_PAROLE);
    if contiguous_is_zero(t) & !parole {
        return RequestedFrom {
            exclusive: true,
            active: false,
            longest: 0,
            first: 0,
        };
    }
    requested_from(words, cells, s, place, many, q)
}
