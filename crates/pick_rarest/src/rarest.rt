// The phase of a pick that goes by rarity: recent extents where asked for, then the list; under REVERSE the list backwards instead.
ghost use Rattle.std.specs.Prelude.{◌≤◌};
ghost use Rattle.model.specs.Lists.{nth};
ghost use Rattle.model.specs.pick.Pick.{pick_forward, pick_rarest};
ghost use Rattle.memory_rows.specs.Lookup.{picker_in};
ghost use Rattle.pick_state.specs.Requests.{request_of};
ghost use Rattle.pick_state.specs.Room.{Underway};
ghost use Rattle.pick_free.specs.Picking.{Picks};
ghost use Rattle.pick_visits.specs.Steps.{Risen};
ghost use Rattle.pick_extents.specs.Extents.{Moved};

use crate::listed::{walk_list, walk_list_back};
use memory_layout::Shape;
use pick_extents::pick_extents;
use pick_state::{PickNumbers, PickRequest};
use types::PickerOptions;

// Recent extents where asked for, then the list.
fn pick_forward(
    words: &mut [u64],
    cells: &[u16],
    rows: &[u32],
    live: usize,
    s: Shape,
    q: PickRequest,
    bytes: &[u8],
    out: &mut [u64],
    aside: &mut [u64],
    ignored: &mut [bool],
    loops: &mut [u64],
    t: PickNumbers,
) -> PickNumbers
    requires picks { Picks s live rows.now words.old cells.now q }
    requires underway { Underway (picker_in live rows.now words.old cells.now) t out.old aside.old ignored.old loops.old }
    requires le_left { (1 ≤ t.left) × (nth 0 loops.old 3 ≤ 4294967296) }
    ensures moved { Moved (pick_forward (request_of q bytes.now)) s live rows.now words.old words.new cells.now q t result
        out.old aside.old ignored.old loops.old
        out.new aside.new ignored.new loops.new }
    ensures risen { Risen 4096 loops.old loops.new }
{
    if q.options.contains(PickerOptions::PIECE_EXTENT_AFFINITY) {
        let u = pick_extents(
            words, cells, rows, live, s, q, bytes, out, aside, ignored, t,
        );
        if u.left == 0 {
            return u;
        }
        return walk_list(
            words, cells, rows, live, s, q, bytes, out, aside, ignored, loops, u,
        );
    }
    walk_list(
        words, cells, rows, live, s, q, bytes, out, aside, ignored, loops, t,
    )
}

// The list, backwards under REVERSE.
pub fn pick_rarest(
    words: &mut [u64],
    cells: &[u16],
    rows: &[u32],
    live: usize,
    s: Shape,
    q: PickRequest,
    bytes: &[u8],
    out: &mut [u64],
    aside: &mut [u64],
    ignored: &mut [bool],
    loops: &mut [u64],
    t: PickNumbers,
) -> PickNumbers
    requires picks { Picks s live rows.now words.old cells.now q }
    requires underway { Underway (picker_in live rows.now words.old cells.now) t out.old aside.old ignored.old loops.old }
    requires le_left { (1 ≤ t.left) × (nth 0 loops.old 2 ≤ 4294967296) × (nth 0 loops.old 3 ≤ 4294967296) }
    ensures moved { Moved (pick_rarest (request_of q bytes.now)) s live rows.now words.old words.new cells.now q t result
        out.old aside.old ignored.old loops.old
        out.new aside.new ignored.new loops.new }
    ensures risen { Risen 4096 loops.old loops.new }
{
    if q.options.contains(PickerOptions::REVERSE) {
        return walk_list_back(
            words, cells, rows, live, s, q, bytes, out, aside, ignored, loops, t,
        );
    }
    pick_forward(
        words, cells, rows, live, s, q, bytes, out, aside, ignored, loops, t,
    )
}
