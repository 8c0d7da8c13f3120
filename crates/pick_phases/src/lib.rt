// The phases of a pick: partials, suggestions, sequential, rarest or random, backup blocks, end game. A spent N stops it.
#![tactic(auto)]

ghost use Rattle.std.specs.Prelude.{◌≡◌, ◌≤◌, length};
ghost use Rattle.types.specs.Piece.{number_of};
ghost use Rattle.model.specs.Lists.{each};
ghost use Rattle.model.specs.pick.Pick.{pick_main};
ghost use Rattle.check_partials.specs.Records.{CountsHeld};
ghost use Rattle.memory_rows.specs.Lookup.{picker_in};
ghost use Rattle.pick_state.specs.Requests.{request_of};
ghost use Rattle.pick_state.specs.Room.{Underway};
ghost use Rattle.pick_free.specs.Picking.{Picks};
ghost use Rattle.pick_visits.specs.Steps.{Stepped, Risen};
ghost use Rattle.pick_extents.specs.Extents.{Moved};
ghost use Rattle.pick_phases.specs.Phases.{pick_first, pick_last, pick_phases, LowLoops, Ended};

use memory_layout::Shape;
use pick_listed::pick_listed;
use pick_partials::pick_partials;
use pick_random::pick_random;
use pick_rest::pick_rest;
use pick_state::{PickNumbers, PickRequest};
use pick_visits::pick_suggested;
use types::PickerOptions;

// Sequential and rarest, or random.
fn pick_main(
    words: &mut [u64],
    cells: &[u16],
    rows: &[u32],
    live: usize,
    s: Shape,
    q: PickRequest,
    bytes: &[u8],
    draws: &[u32],
    out: &mut [u64],
    aside: &mut [u64],
    ignored: &mut [bool],
    loops: &mut [u64],
    t: PickNumbers,
) -> PickNumbers
    requires picks { Picks s live rows.now words.old cells.now q }
    requires underway { Underway (picker_in live rows.now words.old cells.now) t out.old aside.old ignored.old loops.old }
    requires le_left { (1 ≤ t.left) × (t.used ≡ 0) × LowLoops 4294967296 loops.old }
    ensures moved { Moved (pick_main draws.now (request_of q bytes.now)) s live rows.now
        words.old words.new cells.now q t result
        out.old aside.old ignored.old loops.old
        out.new aside.new ignored.new loops.new }
    ensures risen { (Risen 137573171200 loops.old loops.new) × (result.used ≤ 4096) }
{
    let sequential = q.options.contains(PickerOptions::SEQUENTIAL);
    let rarest = q.options.contains(PickerOptions::RAREST_FIRST);
    if sequential | rarest {
        return pick_listed(
            words, cells, rows, live, s, q, bytes, draws, out, aside, ignored, loops, t,
        );
    }
    pick_random(
        words, cells, rows, live, s, q, bytes, draws, out, aside, ignored, loops, t,
    )
}

// Partials, then the pieces suggested.
fn pick_first(
    words: &[u64],
    cells: &[u16],
    rows: &[u32],
    live: usize,
    counts: &[u16],
    s: Shape,
    q: PickRequest,
    bytes: &[u8],
    suggestions: &[i32],
    out: &mut [u64],
    aside: &mut [u64],
    ignored: &mut [bool],
    loops: &mut [u64],
    t: PickNumbers,
) -> PickNumbers
    requires picks { Picks s live rows.now words.now cells.now q }
    requires counts_held { (CountsHeld (picker_in live rows.now words.now cells.now) live counts.now) × (length counts.now ≡ 1536) }
    requires underway { Underway (picker_in live rows.now words.now cells.now) t out.old aside.old ignored.old loops.old }
    requires le_left { (1 ≤ t.left) × (t.aside ≡ 0) × (length suggestions.now ≤ 256) × LowLoops 1000000 loops.old }
    ensures stepped { Stepped (pick_first (request_of q bytes.now) (each number_of suggestions.now))
        (picker_in live rows.now words.now cells.now) t result
        out.old aside.old ignored.old loops.old
        out.new aside.new ignored.new loops.new }
    ensures risen { (Risen 768 loops.old loops.new) × (result.used ≤ t.used) }
{
    let u = pick_partials(
        words, cells, rows, live, counts, s, q, bytes, out, aside, loops, t,
    );
    if u.left == 0 {
        return u;
    }
    pick_suggested(
        words,
        cells,
        rows,
        live,
        s,
        q,
        bytes,
        out,
        aside,
        ignored,
        loops,
        u,
        suggestions,
    )
}

// The main phase, then the rest.
fn pick_last(
    words: &mut [u64],
    cells: &[u16],
    rows: &[u32],
    live: usize,
    s: Shape,
    q: PickRequest,
    bytes: &[u8],
    draws: &[u32],
    out: &mut [u64],
    aside: &mut [u64],
    ignored: &mut [bool],
    loops: &mut [u64],
    t: PickNumbers,
) -> PickNumbers
    requires picks { Picks s live rows.now words.old cells.now q }
    requires underway { Underway (picker_in live rows.now words.old cells.now) t out.old aside.old ignored.old loops.old }
    requires le_left { (1 ≤ t.left) × (t.used ≡ 0) × LowLoops 4294967296 loops.old }
    ensures { Ended (pick_last draws.now (request_of q bytes.now)) s live rows.now
        words.old words.new cells.now q t result
        out.old aside.old ignored.old loops.old
        out.new aside.new ignored.new loops.new }
{
    let u = pick_main(
        words, cells, rows, live, s, q, bytes, draws, out, aside, ignored, loops, t,
    );
    if u.left == 0 {
        return u;
    }
    pick_rest(
        words, cells, rows, live, s, q, bytes, draws, out, aside, loops, u,
    )
}

// All of them.
pub fn pick_phases(
    words: &mut [u64],
    cells: &[u16],
    rows: &[u32],
    live: usize,
    counts: &[u16],
    s: Shape,
    q: PickRequest,
    bytes: &[u8],
    suggestions: &[i32],
    draws: &[u32],
    out: &mut [u64],
    aside: &mut [u64],
    ignored: &mut [bool],
    loops: &mut [u64],
    t: PickNumbers,
) -> PickNumbers
    requires picks { Picks s live rows.now words.old cells.now q }
    requires counts_held { (CountsHeld (picker_in live rows.now words.old cells.now) live counts.now) × (length counts.now ≡ 1536) }
    requires underway { Underway (picker_in live rows.now words.old cells.now) t out.old aside.old ignored.old loops.old }
    requires le_left { (1 ≤ t.left) × (t.aside ≡ 0) × (t.used ≡ 0) × (length suggestions.now ≤ 256) × LowLoops 1000000 loops.old }
    ensures { Ended (pick_phases draws.now (request_of q bytes.now)
        (each number_of suggestions.now)) s live
        rows.now words.old words.new cells.now q t result
        out.old aside.old ignored.old loops.old
        out.new aside.new ignored.new loops.new }
{
    let u = pick_first(
        words,
        cells,
        rows,
        live,
        counts,
        s,
        q,
        bytes,
        suggestions,
        out,
        aside,
        ignored,
        loops,
        t,
    );
    if u.left == 0 {
        return u;
    }
    pick_last(
        words, cells, rows, live, s, q, bytes, draws, out, aside, ignored, loops, u,
    )
}
