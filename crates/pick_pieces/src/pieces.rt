// `pick_pieces` on a picker that stands.
ghost use Rattle.std.specs.Prelude.{◌≡◌, ◌+◌, ◌≤◌, length};
ghost use Rattle.types.specs.Piece.{number_of};
ghost use Rattle.model.specs.Lists.{each};
ghost use Rattle.model.specs.pick.Pick.{pick_pieces};
ghost use Rattle.check_partials.specs.Records.{CountsHeld};
ghost use Rattle.memory_rows.specs.Lookup.{picker_in};
ghost use Rattle.pick_free.specs.Picking.{Picks};
ghost use Rattle.pick_start.specs.Starting.{request_with};
ghost use Rattle.pick_pieces.specs.Whole.{PickRoom, PickGave, PickLeft};

use memory_layout::Shape;
use pick_phases::pick_phases;
use pick_start::{effective_request, is_forced, start_pick};
use pick_state::PickRequest;

// Where the output ends now, the flags set, the draws used and the steps of the seven loops, in document 01's order.
#[derive(Drop)]
pub struct Picked {
    pub end: usize,
    pub flags: u32,
    pub used: usize,
    pub partial_loops: u64,
    pub suggest_loops: u64,
    pub reverse_rare_loops: u64,
    pub rare_loops: u64,
    pub rand_start_loops: u64,
    pub rand_loops: u64,
    pub busy_loops: u64,
}

// The pick with a room for blocks set aside, of which there are at most 255 more than are wanted.
fn pick_with(
    words: &mut [u64],
    cells: &[u16],
    rows: &[u32],
    live: usize,
    counts: &[u16],
    s: Shape,
    q: PickRequest,
    bytes: &[u8],
    suggestions: &[i32],
    draws: &[u32],
    out: &mut [u64],
    aside: &mut [u64],
    end: usize,
) -> Picked
    requires picks { Picks s live rows.now words.old cells.now q }
    requires counts_held { (CountsHeld (picker_in live rows.now words.old cells.now) live counts.now) × (length counts.now ≡ 1536) }
    requires pick_room { PickRoom q (length suggestions.now) end (length out.old) }
    requires wanted_in_bounds { q.wanted + 256 ≤ length aside.old }
    ensures pick_gave { PickGave (pick_pieces draws.now (picker_in live rows.now words.old cells.now)
        (request_with q bytes.now (each number_of suggestions.now)))
        (picker_in live rows.now words.new cells.now) end out.old out.new result }
    ensures pick_left { PickLeft s live rows.now words.old words.new cells.now q }
{
    let mut ignored = [false; 4096];
    let mut loops = [0; 7];
    let forced = is_forced(cells, rows, live, s, q.peers);
    let asked = effective_request(q, forced);
    let t = start_pick(asked, forced, end);
    let r = pick_phases(
        words,
        cells,
        rows,
        live,
        counts,
        s,
        asked,
        bytes,
        suggestions,
        draws,
        out,
        aside,
        &mut ignored,
        &mut loops,
        t,
    );
    Picked {
        end: r.end,
        flags: r.flags,
        used: r.used,
        partial_loops: loops[0],
        suggest_loops: loops[1],
        reverse_rare_loops: loops[2],
        rare_loops: loops[3],
        rand_start_loops: loops[4],
        rand_loops: loops[5],
        busy_loops: loops[6],
    }
}

// The blocks picked stand in the output from `end` on, each as a word: piece · 65,536 + block. Where few are wanted, a small room for
// blocks set aside is cleared.
pub fn pick_pieces(
    words: &mut [u64],
    cells: &[u16],
    rows: &[u32],
    live: usize,
    counts: &[u16],
    s: Shape,
    q: PickRequest,
    bytes: &[u8],
    suggestions: &[i32],
    draws: &[u32],
    out: &mut [u64],
    end: usize,
) -> Picked
    requires picks { Picks s live rows.now words.old cells.now q }
    requires counts_held { (CountsHeld (picker_in live rows.now words.old cells.now) live counts.now) × (length counts.now ≡ 1536) }
    requires pick_room { PickRoom q (length suggestions.now) end (length out.old) }
    ensures pick_gave { PickGave (pick_pieces draws.now (picker_in live rows.now words.old cells.now)
        (request_with q bytes.now (each number_of suggestions.now)))
        (picker_in live rows.now words.new cells.now) end out.old out.new result }
    ensures pick_left { PickLeft s live rows.now words.old words.new cells.now q }
{
    if q.wanted <= 64 {
        let mut aside = [0; 320];
        return pick_with(
            words,
            cells,
            rows,
            live,
            counts,
            s,
            q,
            bytes,
            suggestions,
            draws,
            out,
            &mut aside,
            end,
        );
    }
    let mut aside = [0; 2304];
    pick_with(
        words,
        cells,
        rows,
        live,
        counts,
        s,
        q,
        bytes,
        suggestions,
        draws,
        out,
        &mut aside,
        end,
    )
}
