// The sequential phase of a pick: the pieces of the top priority in the list's order, then the range from cursor to reverse cursor.
#![tactic(auto)]

ghost use Rattle.std.specs.Prelude.{◌≤◌};
ghost use Rattle.model.specs.pick.Pick.{pick_range, pick_sequential};
ghost use Rattle.memory_rows.specs.Lookup.{picker_in};
ghost use Rattle.pick_state.specs.Requests.{request_of};
ghost use Rattle.pick_free.specs.Picking.{Picks};
ghost use Rattle.pick_blocks.specs.Blocks.{PieceRoom};
ghost use Rattle.pick_visits.specs.Steps.{SteppedBeside};
ghost use Rattle.pick_visits.specs.Walks.{walk_top, walk_up, walk_down};

use memory_fields::{cursor, list_length, priority, reverse_cursor};
use memory_layout::Shape;
use memory_list::list_place;
use pick_state::{PickNumbers, PickRequest};
use pick_visits::{visit_below_top, visit_listed};
use types::{PickerFlags, PickerOptions, u64_to_usize};

// The list, up to the first piece that is not of the top priority.
fn walk_top(
    words: &[u64],
    cells: &[u16],
    rows: &[u32],
    live: usize,
    s: Shape,
    q: PickRequest,
    bytes: &[u8],
    out: &mut [u64],
    aside: &mut [u64],
    ignored: &mut [bool],
    t: PickNumbers,
) -> PickNumbers
    requires picks { Picks s live rows.now words.now cells.now q }
    requires piece_room { PieceRoom (picker_in live rows.now words.now cells.now) t out.old aside.old ignored.old }
    requires le_left { 1 ≤ t.left }
    ensures { SteppedBeside (walk_top (request_of q bytes.now))
        (picker_in live rows.now words.now cells.now) t result
        out.old aside.old ignored.old out.new aside.new ignored.new }
{
    let n = list_length(words, s);
    let mut cur = t;
    for k in 0..n {
        let i = list_place(words, s, k);
        if priority(cells, s, i) != 7 {
            return cur;
        }
        cur = visit_listed(
            words,
            cells,
            rows,
            live,
            s,
            q,
            bytes,
            out,
            aside,
            ignored,
            cur,
            i,
            PickerFlags::PRIO_SEQUENTIAL_PIECES,
        );
        if cur.left == 0 {
            return cur;
        }
    }
    cur
}

// The range.
fn walk_up(
    words: &[u64],
    cells: &[u16],
    rows: &[u32],
    live: usize,
    s: Shape,
    q: PickRequest,
    bytes: &[u8],
    out: &mut [u64],
    aside: &mut [u64],
    ignored: &mut [bool],
    t: PickNumbers,
) -> PickNumbers
    requires picks { Picks s live rows.now words.now cells.now q }
    requires piece_room { PieceRoom (picker_in live rows.now words.now cells.now) t out.old aside.old ignored.old }
    requires le_left { 1 ≤ t.left }
    ensures { SteppedBeside (walk_up (request_of q bytes.now))
        (picker_in live rows.now words.now cells.now) t result
        out.old aside.old ignored.old out.new aside.new ignored.new }
{
    let end = u64_to_usize(reverse_cursor(words, s));
    let mut cur = t;
    for i in u64_to_usize(cursor(words, s))..end {
        cur = visit_below_top(
            words,
            cells,
            rows,
            live,
            s,
            q,
            bytes,
            out,
            aside,
            ignored,
            cur,
            i,
            PickerFlags::SEQUENTIAL_PIECES,
        );
        if cur.left == 0 {
            return cur;
        }
    }
    cur
}

// The range backwards.
fn walk_down(
    words: &[u64],
    cells: &[u16],
    rows: &[u32],
    live: usize,
    s: Shape,
    q: PickRequest,
    bytes: &[u8],
    out: &mut [u64],
    aside: &mut [u64],
    ignored: &mut [bool],
    t: PickNumbers,
) -> PickNumbers
    requires picks { Picks s live rows.now words.now cells.now q }
    requires piece_room { PieceRoom (picker_in live rows.now words.now cells.now) t out.old aside.old ignored.old }
    requires le_left { 1 ≤ t.left }
    ensures { SteppedBeside (walk_down (request_of q bytes.now))
        (picker_in live rows.now words.now cells.now) t result
        out.old aside.old ignored.old out.new aside.new ignored.new }
{
    let first = u64_to_usize(cursor(words, s));
    let end = u64_to_usize(reverse_cursor(words, s));
    let mut cur = t;
    for i in (first..end).rev() {
        cur = visit_below_top(
            words,
            cells,
            rows,
            live,
            s,
            q,
            bytes,
            out,
            aside,
            ignored,
            cur,
            i,
            PickerFlags::REVERSE_SEQUENTIAL,
        );
        if cur.left == 0 {
            return cur;
        }
    }
    cur
}

// The range, backwards under REVERSE.
fn pick_range(
    words: &[u64],
    cells: &[u16],
    rows: &[u32],
    live: usize,
    s: Shape,
    q: PickRequest,
    bytes: &[u8],
    out: &mut [u64],
    aside: &mut [u64],
    ignored: &mut [bool],
    t: PickNumbers,
) -> PickNumbers
    requires picks { Picks s live rows.now words.now cells.now q }
    requires piece_room { PieceRoom (picker_in live rows.now words.now cells.now) t out.old aside.old ignored.old }
    requires le_left { 1 ≤ t.left }
    ensures { SteppedBeside (pick_range (request_of q bytes.now))
        (picker_in live rows.now words.now cells.now) t result
        out.old aside.old ignored.old out.new aside.new ignored.new }
{
    if q.options.contains(PickerOptions::REVERSE) {
        return walk_down(
            words, cells, rows, live, s, q, bytes, out, aside, ignored, t,
        );
    }
    walk_up(
        words, cells, rows, live, s, q, bytes, out, aside, ignored, t,
    )
}

// Both, up to where no block is wanted.
pub fn pick_sequential(
    words: &[u64],
    cells: &[u16],
    rows: &[u32],
    live: usize,
    s: Shape,
    q: PickRequest,
    bytes: &[u8],
    out: &mut [u64],
    aside: &mut [u64],
    ignored: &mut [bool],
    t: PickNumbers,
) -> PickNumbers
    requires picks { Picks s live rows.now words.now cells.now q }
    requires piece_room { PieceRoom (picker_in live rows.now words.now cells.now) t out.old aside.old ignored.old }
    requires le_left { 1 ≤ t.left }
    ensures { SteppedBeside (pick_sequential (request_of q bytes.now))
        (picker_in live rows.now words.now cells.now) t result
        out.old aside.old ignored.old out.new aside.new ignored.new }
{
    let top = walk_top(
        words, cells, rows, live, s, q, bytes, out, aside, ignored, t,
    );
    if top.left == 0 {
        return top;
    }
    pick_range(
        words, cells, rows, live, s, q, bytes, out, aside, ignored, top,
    )
}
