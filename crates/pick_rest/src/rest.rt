// Blocks set aside, then the end game, which a peer on parole does not take part in.
ghost use Rattle.std.specs.Prelude.{◌+◌, ◌≤◌, ◌<◌, length};
ghost use Rattle.memory_rows.specs.Lookup.{picker_in};
ghost use Rattle.pick_free.specs.Picking.{Picks};
ghost use Rattle.pick_state.specs.Requests.{request_of};
ghost use Rattle.pick_rest.specs.Game.{CountRoom, RestDid};

use crate::game::pick_end_game;
use memory_layout::Shape;
use pick_append::append_blocks;
use pick_state::{PickNumbers, PickRequest, flagged};
use types::{PickerFlags, PickerOptions};

pub fn pick_rest(
    words: &[u64],
    cells: &[u16],
    rows: &[u32],
    live: usize,
    s: Shape,
    q: PickRequest,
    bytes: &[u8],
    draws: &[u32],
    out: &mut [u64],
    aside: &[u64],
    loops: &mut [u64],
    t: PickNumbers,
) -> PickNumbers
    requires picks { Picks s live rows.now words.now cells.now q }
    requires left_in_bounds { (t.end + t.left ≤ length out.old) × (t.aside ≤ length aside.now) }
    requires used_bound { (t.used + 401 < 4294967296) × (CountRoom 200 loops.old) }
    ensures { RestDid draws.now (request_of q bytes.now)
        (picker_in live rows.now words.now cells.now) t result out.old out.new aside.now
        loops.old loops.new }
{
    let u = append_blocks(out, aside, flagged(t, PickerFlags::BACKUP1));
    let parole = q.options.contains(PickerOptions::ON_PAROLE);
    if (u.left == 0) | parole {
        return u;
    }
    pick_end_game(words, cells, rows, live, s, q, bytes, draws, out, loops, u)
}
