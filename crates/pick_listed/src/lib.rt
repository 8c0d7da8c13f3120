// The phases of a pick that go by the list: it is made anew where it is dirty, then a sequential walk, then the one by rarity.
#![tactic(auto)]

ghost use Rattle.std.specs.Prelude.{◌≡◌, ◌≤◌, length};
ghost use Rattle.model.specs.Lists.{nth};
ghost use Rattle.model.specs.list.Order.{update_pieces};
ghost use Rattle.model.specs.pick.Pick.{pick_listed};
ghost use Rattle.memory_rows.specs.Lookup.{picker_in};
ghost use Rattle.memory_list.specs.Listings.{ListBounds, RanksRight, ListBecame};
ghost use Rattle.pick_state.specs.Requests.{request_of};
ghost use Rattle.pick_state.specs.Room.{Underway};
ghost use Rattle.pick_free.specs.Picking.{Picks};
ghost use Rattle.pick_visits.specs.Steps.{Risen};
ghost use Rattle.pick_extents.specs.Extents.{Moved};
ghost use Rattle.pick_listed.specs.Listed.{with_used, walk_listed};

use memory_layout::Shape;
use memory_rebuild::update_pieces;
use pick_rarest::pick_rarest;
use pick_sequential::pick_sequential;
use pick_state::{PickNumbers, PickRequest};
use types::PickerOptions;

// The list made anew where it is dirty.
fn with_list_updated(
    words: &mut [u64],
    cells: &[u16],
    s: Shape,
    draws: &[u32],
    t: PickNumbers,
) -> PickNumbers
    requires list_bounds { ListBounds s words.old cells.now }
    requires ranks_right { RanksRight s words.old cells.now }
    requires used_in_bounds { t.used ≤ length draws.now }
    ensures list_became { ListBecame s (update_pieces draws.now) words.old words.new cells.now
        t.used result.used }
    ensures value { result ≡ with_used result.used t }
{
    let used = update_pieces(words, cells, s, draws, t.used);
    PickNumbers { used: used, ..t }
}

// Both walks over a list that is right, up to where no block is wanted.
fn walk_listed(
    words: &mut [u64],
    cells: &[u16],
    rows: &[u32],
    live: usize,
    s: Shape,
    q: PickRequest,
    bytes: &[u8],
    out: &mut [u64],
    aside: &mut [u64],
    ignored: &mut [bool],
    loops: &mut [u64],
    t: PickNumbers,
) -> PickNumbers
    requires picks { Picks s live rows.now words.old cells.now q }
    requires underway { Underway (picker_in live rows.now words.old cells.now) t out.old aside.old ignored.old loops.old }
    requires le_left { (1 ≤ t.left) × (nth 0 loops.old 2 ≤ 4294967296) × (nth 0 loops.old 3 ≤ 4294967296) }
    ensures moved { Moved (walk_listed (request_of q bytes.now)) s live rows.now words.old
        words.new cells.now q t result
        out.old aside.old ignored.old loops.old
        out.new aside.new ignored.new loops.new }
    ensures risen { Risen 4096 loops.old loops.new }
{
    if q.options.contains(PickerOptions::SEQUENTIAL) {
        let u = pick_sequential(
            words, cells, rows, live, s, q, bytes, out, aside, ignored, t,
        );
        if u.left == 0 {
            return u;
        }
        return pick_rarest(
            words, cells, rows, live, s, q, bytes, out, aside, ignored, loops, u,
        );
    }
    pick_rarest(
        words, cells, rows, live, s, q, bytes, out, aside, ignored, loops, t,
    )
}

// The list, then both walks.
pub fn pick_listed(
    words: &mut [u64],
    cells: &[u16],
    rows: &[u32],
    live: usize,
    s: Shape,
    q: PickRequest,
    bytes: &[u8],
    draws: &[u32],
    out: &mut [u64],
    aside: &mut [u64],
    ignored: &mut [bool],
    loops: &mut [u64],
    t: PickNumbers,
) -> PickNumbers
    requires picks { Picks s live rows.now words.old cells.now q }
    requires underway { Underway (picker_in live rows.now words.old cells.now) t out.old aside.old ignored.old loops.old }
    requires le_left { (1 ≤ t.left) × (t.used ≤ length draws.now) × (nth 0 loops.old 2 ≤ 4294967296) × (nth 0 loops.old 3 ≤ 4294967296) }
    ensures moved { Moved (pick_listed draws.now (request_of q bytes.now)) s live rows.now
        words.old words.new cells.now q t result
        out.old aside.old ignored.old loops.old
        out.new aside.new ignored.new loops.new }
    ensures risen { Risen 4096 loops.old loops.new }
{
    let u = with_list_updated(words, cells, s, draws, t);
    walk_listed(
        words, cells, rows, live, s, q, bytes, out, aside, ignored, loops, u,
    )
}
