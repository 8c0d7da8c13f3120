// The second phase of a pick: the pieces that the caller suggests.
ghost use Rattle.std.specs.Prelude.{◌≤◌, ◌<◌, length};
ghost use Rattle.types.specs.Piece.{number_of};
ghost use Rattle.model.specs.Lists.{nth, each, walk};
ghost use Rattle.model.specs.pick.Blocks.{spent};
ghost use Rattle.model.specs.pick.Pick.{suggest};
ghost use Rattle.memory_rows.specs.Lookup.{picker_in};
ghost use Rattle.pick_state.specs.Requests.{request_of};
ghost use Rattle.pick_state.specs.Room.{Underway};
ghost use Rattle.pick_free.specs.Picking.{Picks};
ghost use Rattle.pick_visits.specs.Steps.{Stepped, Counted};

use crate::visits::add_flagged;
use memory_layout::Shape;
use pick_free::is_piece_free;
use pick_state::{PickNumbers, PickRequest, count};
use types::{PickerFlags, i32_to_usize};

// Piece i counted; a free one adds its blocks, and is ignored from here on. A number that is no piece is passed over.
fn suggest(
    words: &[u64],
    cells: &[u16],
    rows: &[u32],
    live: usize,
    s: Shape,
    q: PickRequest,
    bytes: &[u8],
    out: &mut [u64],
    aside: &mut [u64],
    ignored: &mut [bool],
    loops: &mut [u64],
    t: PickNumbers,
    i: usize,
) -> PickNumbers
    requires picks { Picks s live rows.now words.now cells.now q }
    requires underway { Underway (picker_in live rows.now words.now cells.now) t out.old aside.old ignored.old loops.old }
    requires le_left { (1 ≤ t.left) × (nth 0 loops.old 1 < 9223372036854775808) }
    ensures stepped { Stepped (suggest (request_of q bytes.now) i) (picker_in live rows.now words.now cells.now) t result
        out.old aside.old ignored.old loops.old
        out.new aside.new ignored.new loops.new }
    ensures counted { Counted 1 1 loops.old loops.new }
{
    count(loops, 1);
    if is_piece_free(cells, s, q, bytes, i) {
        let r = add_flagged(
            words,
            cells,
            rows,
            live,
            s,
            q,
            bytes,
            out,
            aside,
            ignored,
            t,
            i,
            PickerFlags::SUGGESTED_PIECES,
        );
        ignored[i] = true;
        return r;
    }
    t
}

// The suggested pieces in turn. A negative number is past every piece.
pub fn pick_suggested(
    words: &[u64],
    cells: &[u16],
    rows: &[u32],
    live: usize,
    s: Shape,
    q: PickRequest,
    bytes: &[u8],
    out: &mut [u64],
    aside: &mut [u64],
    ignored: &mut [bool],
    loops: &mut [u64],
    t: PickNumbers,
    suggestions: &[i32],
) -> PickNumbers
    requires picks { Picks s live rows.now words.now cells.now q }
    requires underway { Underway (picker_in live rows.now words.now cells.now) t out.old aside.old ignored.old loops.old }
    requires le_left { (1 ≤ t.left) × (length suggestions.now ≤ 256) × (nth 0 loops.old 1 ≤ 4294967296) }
    ensures stepped { Stepped (walk (suggest (request_of q bytes.now)) spent (each number_of suggestions.now))
        (picker_in live rows.now words.now cells.now) t result
        out.old aside.old ignored.old loops.old
        out.new aside.new ignored.new loops.new }
    ensures counted { Counted 1 (length suggestions.now) loops.old loops.new }
{
    let mut cur = t;
    for &piece in suggestions {
        let i = i32_to_usize(piece);
        cur = suggest(
            words, cells, rows, live, s, q, bytes, out, aside, ignored, loops, cur, i,
        );
        if cur.left == 0 {
            return cur;
        }
    }
    cur
}
