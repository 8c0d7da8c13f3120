// The phase: the scan, and the walk over what it found.
ghost use Rattle.std.specs.Prelude.{◌≡◌, ◌&&◌, not, ◌+◌, ◌≤◌, ◌<◌, length, take};
ghost use Rattle.types.specs.Bits.{meets};
ghost use Rattle.model.specs.Lists.{each, nth, set_nth};
ghost use Rattle.model.specs.Options.{rarest_first, on_parole};
ghost use Rattle.model.specs.pick.Pick.{pick_partials};
ghost use Rattle.memory_layout.specs.Changes.{partial_in};
ghost use Rattle.check_partials.specs.Records.{CountsHeld};
ghost use Rattle.memory_rows.specs.Lookup.{picker_in};
ghost use Rattle.pick_state.specs.Requests.{request_of};
ghost use Rattle.pick_free.specs.Picking.{Picks};
ghost use Rattle.pick_blocks.specs.Blocks.{PartialRoom};
ghost use Rattle.pick_visits.specs.Steps.{Risen};
ghost use Rattle.pick_scan.specs.Scans.{PlacesRise};
ghost use Rattle.pick_partials.specs.Phase.{walk_ordered, MarksRoom, SteppedUnmarked, SteppedAlone};

use crate::rarest::walk_rarest;
use crate::walks::walk_partials;
use memory_layout::Shape;
use pick_scan::scan_partials;
use pick_state::{PickNumbers, PickRequest};
use types::{PickerOptions, usize_to_u64};

// n steps more on a counter.
fn count_steps(loops: &mut [u64], counter: usize, n: usize)
    requires { (counter < length loops.old) × (nth 0 loops.old counter ≤ 4294967296) × (n ≤ 512) }
    ensures { loops.new ≡ set_nth counter (nth 0 loops.old counter + n) loops.old }
{
    loops[counter] = loops[counter] + usize_to_u64(n);
}

// Partials go by rarity: RAREST_FIRST, and not on parole.
fn by_rarity(q: PickRequest) -> bool
    ensures { result ≡ (meets q.options.0 rarest_first && not (meets q.options.0 on_parole)) }
{
    let rarest = q.options.contains(PickerOptions::RAREST_FIRST);
    let parole = q.options.contains(PickerOptions::ON_PAROLE);
    rarest & !parole
}

// The partials at the first places of a row, by rarity or as they stand there.
fn walk_ordered(
    words: &[u64],
    cells: &[u16],
    rows: &[u32],
    live: usize,
    counts: &[u16],
    s: Shape,
    q: PickRequest,
    bytes: &[u8],
    out: &mut [u64],
    aside: &mut [u64],
    t: PickNumbers,
    places: &[u16; 512],
    many: usize,
) -> PickNumbers
    requires picks { Picks s live rows.now words.now cells.now q }
    requires counts_held { (CountsHeld (picker_in live rows.now words.now cells.now) live counts.now) × (length counts.now ≡ 1536) }
    requires partial_room { PartialRoom (picker_in live rows.now words.now cells.now) t out.old aside.old }
    requires le_left { (1 ≤ t.left) × (PlacesRise live many places.now) }
    ensures { SteppedAlone (walk_ordered (request_of q bytes.now)
        (picker_in live rows.now words.now cells.now)
        (each (partial_in (picker_in live rows.now words.now cells.now)) (take many places.now)))
        (picker_in live rows.now words.now cells.now) t result
        out.old aside.old out.new aside.new }
{
    if by_rarity(q) {
        return walk_rarest(
            words, cells, rows, live, counts, s, q, bytes, out, aside, t, places, many,
        );
    }
    walk_partials(
        words, cells, rows, live, s, q, bytes, out, aside, t, places, many,
    )
}

// Partials in turn, where they come first: by rarity or by rising piece.
pub fn pick_partials(
    words: &[u64],
    cells: &[u16],
    rows: &[u32],
    live: usize,
    counts: &[u16],
    s: Shape,
    q: PickRequest,
    bytes: &[u8],
    out: &mut [u64],
    aside: &mut [u64],
    loops: &mut [u64],
    t: PickNumbers,
) -> PickNumbers
    requires picks { Picks s live rows.now words.now cells.now q }
    requires counts_held { (CountsHeld (picker_in live rows.now words.now cells.now) live counts.now) × (length counts.now ≡ 1536) }
    requires marks_room { MarksRoom (picker_in live rows.now words.now cells.now) t out.old aside.old loops.old }
    requires le_left { (1 ≤ t.left) × (nth 0 loops.old 0 ≤ 4294967296) }
    ensures stepped_unmarked { SteppedUnmarked (pick_partials (request_of q bytes.now))
        (picker_in live rows.now words.now cells.now) t result
        out.old aside.old loops.old out.new aside.new loops.new }
    ensures risen { Risen 512 loops.old loops.new }
{
    if !q.options.contains(PickerOptions::PRIORITIZE_PARTIALS) {
        return t;
    }
    let mut places = [0; 512];
    let found = scan_partials(words, cells, rows, live, s, q, bytes, &mut places);
    count_steps(loops, 0, found.downloading);
    walk_ordered(
        words, cells, rows, live, counts, s, q, bytes, out, aside, t, &places, found.many,
    )
}
