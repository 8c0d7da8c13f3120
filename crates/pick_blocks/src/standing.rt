// What a Downloading piece adds.
ghost use Rattle.std.specs.Prelude.{◌<◌};
ghost use Rattle.model.specs.pick.Blocks.{add_standing};
ghost use Rattle.memory_rows.specs.Lookup.{picker_in};
ghost use Rattle.pick_state.specs.Requests.{request_of};
ghost use Rattle.pick_free.specs.Picking.{Picks};
ghost use Rattle.pick_blocks.specs.Blocks.{PartialRoom, PartialWorked};

use memory_layout::Shape;
use memory_rows::find;
use pick_partial::add_blocks_downloading;
use pick_state::{PickNumbers, PickRequest};
use types::PickerOptions;

// What the partial of piece i adds: nothing under PRIORITIZE_PARTIALS, since partials were walked before.
pub fn add_standing(
    words: &[u64],
    cells: &[u16],
    rows: &[u32],
    live: usize,
    s: Shape,
    q: PickRequest,
    bytes: &[u8],
    out: &mut [u64],
    aside: &mut [u64],
    t: PickNumbers,
    i: usize,
) -> PickNumbers
    requires picks { Picks s live rows.now words.now cells.now q }
    requires partial_room { PartialRoom (picker_in live rows.now words.now cells.now) t out.old aside.old }
    requires left_nonzero { 0 < t.left }
    ensures { PartialWorked (add_standing (request_of q bytes.now) i)
        (picker_in live rows.now words.now cells.now) t result out.old aside.old
        out.new aside.new }
{
    if q.options.contains(PickerOptions::PRIORITIZE_PARTIALS) {
        return t;
    }
    let Some(k) = find(rows, live, i) else {
        return t;
    };
    add_blocks_downloading(words, cells, rows, live, s, q, bytes, out, aside, t, k)
}
