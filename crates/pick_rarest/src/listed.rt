// The list in a pick that goes by rarity: each piece is counted, and visited outside the range that a sequential pick has walked.
ghost use Rattle.std.specs.Prelude.{◌≤◌, ◌<◌};
ghost use Rattle.model.specs.Lists.{nth};
ghost use Rattle.memory_rows.specs.Lookup.{picker_in};
ghost use Rattle.pick_state.specs.Requests.{request_of};
ghost use Rattle.pick_state.specs.Room.{Underway};
ghost use Rattle.pick_free.specs.Picking.{Picks};
ghost use Rattle.pick_visits.specs.Steps.{Stepped, Counted};
ghost use Rattle.pick_visits.specs.Visits.{OnlyBit, counted_visit};
ghost use Rattle.pick_visits.specs.Walks.{walk_list, walk_list_back};

use memory_fields::list_length;
use memory_layout::Shape;
use memory_list::list_place;
use pick_state::{PickNumbers, PickRequest, count};
use pick_visits::{in_range, visit_listed};
use types::PickerFlags;

// Piece i of the list.
fn listed_step(
    words: &[u64],
    cells: &[u16],
    rows: &[u32],
    live: usize,
    s: Shape,
    q: PickRequest,
    bytes: &[u8],
    out: &mut [u64],
    aside: &mut [u64],
    ignored: &mut [bool],
    loops: &mut [u64],
    t: PickNumbers,
    i: usize,
    counter: usize,
    flag: PickerFlags,
) -> PickNumbers
    requires picks { Picks s live rows.now words.now cells.now q }
    requires underway { Underway (picker_in live rows.now words.now cells.now) t out.old aside.old ignored.old loops.old }
    requires le_left { (1 ≤ t.left) × (counter < 7) × (nth 0 loops.old counter < 9223372036854775808) × OnlyBit (request_of q bytes.now) (picker_in live rows.now words.now cells.now) i }
    ensures stepped { Stepped (counted_visit (request_of q bytes.now) counter flag.0 i)
        (picker_in live rows.now words.now cells.now) t result
        out.old aside.old ignored.old loops.old
        out.new aside.new ignored.new loops.new }
    ensures counted { Counted counter 1 loops.old loops.new }
{
    count(loops, counter);
    if in_range(words, s, q, bytes, i) {
        return t;
    }
    visit_listed(
        words, cells, rows, live, s, q, bytes, out, aside, ignored, t, i, flag,
    )
}

// All of it.
pub fn walk_list(
    words: &[u64],
    cells: &[u16],
    rows: &[u32],
    live: usize,
    s: Shape,
    q: PickRequest,
    bytes: &[u8],
    out: &mut [u64],
    aside: &mut [u64],
    ignored: &mut [bool],
    loops: &mut [u64],
    t: PickNumbers,
) -> PickNumbers
    requires picks { Picks s live rows.now words.now cells.now q }
    requires underway { Underway (picker_in live rows.now words.now cells.now) t out.old aside.old ignored.old loops.old }
    requires le_left { (1 ≤ t.left) × (nth 0 loops.old 3 ≤ 4294967296) }
    ensures stepped { Stepped (walk_list (request_of q bytes.now))
        (picker_in live rows.now words.now cells.now) t result
        out.old aside.old ignored.old loops.old
        out.new aside.new ignored.new loops.new }
    ensures counted { Counted 3 4096 loops.old loops.new }
{
    let n = list_length(words, s);
    let mut cur = t;
    for k in 0..n {
        let i = list_place(words, s, k);
        cur = listed_step(
            words,
            cells,
            rows,
            live,
            s,
            q,
            bytes,
            out,
            aside,
            ignored,
            loops,
            cur,
            i,
            3,
            PickerFlags::RAREST_FIRST,
        );
        if cur.left == 0 {
            return cur;
        }
    }
    cur
}

// All of it, the last piece first.
pub fn walk_list_back(
    words: &[u64],
    cells: &[u16],
    rows: &[u32],
    live: usize,
    s: Shape,
    q: PickRequest,
    bytes: &[u8],
    out: &mut [u64],
    aside: &mut [u64],
    ignored: &mut [bool],
    loops: &mut [u64],
    t: PickNumbers,
) -> PickNumbers
    requires picks { Picks s live rows.now words.now cells.now q }
    requires underway { Underway (picker_in live rows.now words.now cells.now) t out.old aside.old ignored.old loops.old }
    requires le_left { (1 ≤ t.left) × (nth 0 loops.old 2 ≤ 4294967296) }
    ensures stepped { Stepped (walk_list_back (request_of q bytes.now))
        (picker_in live rows.now words.now cells.now) t result
        out.old aside.old ignored.old loops.old
        out.new aside.new ignored.new loops.new }
    ensures counted { Counted 2 4096 loops.old loops.new }
{
    let n = list_length(words, s);
    let mut cur = t;
    for k in (0..n).rev() {
        let i = list_place(words, s, k);
        cur = listed_step(
            words,
            cells,
            rows,
            live,
            s,
            q,
            bytes,
            out,
            aside,
            ignored,
            loops,
            cur,
            i,
            2,
            PickerFlags::REVERSE_RAREST_FIRST,
        );
        if cur.left == 0 {
            return cur;
        }
    }
    cur
}
