// A piece visited: where it is free its blocks are added, and the flag of the walk is set. No counter moves.
ghost use Rattle.std.specs.Prelude.{◌≤◌, ◌<◌};
ghost use Rattle.model.specs.pick.Pick.{visit, visit_below_top, in_range, visit_outside};
ghost use Rattle.memory_layout.specs.Bounds.{WordsSpan};
ghost use Rattle.memory_fields.specs.Reading.{HeadSays};
ghost use Rattle.memory_rows.specs.Lookup.{picker_in};
ghost use Rattle.pick_state.specs.Requests.{request_of};
ghost use Rattle.pick_free.specs.Picking.{Picks};
ghost use Rattle.pick_blocks.specs.Blocks.{PieceRoom};
ghost use Rattle.pick_visits.specs.Steps.{SteppedBeside};
ghost use Rattle.pick_visits.specs.Visits.{add_flagged, OnlyBit};

use memory_fields::{cursor, priority, reverse_cursor};
use memory_layout::Shape;
use pick_blocks::add_blocks;
use pick_free::{has_bit, is_piece_free};
use pick_state::{PickNumbers, PickRequest, flagged};
use types::{PickerFlags, PickerOptions, usize_to_u64};

// A flag set, then the blocks of piece i.
pub fn add_flagged(
    words: &[u64],
    cells: &[u16],
    rows: &[u32],
    live: usize,
    s: Shape,
    q: PickRequest,
    bytes: &[u8],
    out: &mut [u64],
    aside: &mut [u64],
    ignored: &mut [bool],
    t: PickNumbers,
    i: usize,
    flag: PickerFlags,
) -> PickNumbers
    requires picks { Picks s live rows.now words.now cells.now q }
    requires piece_room { PieceRoom (picker_in live rows.now words.now cells.now) t out.old aside.old ignored.old }
    requires le_left { (1 ≤ t.left) × (i < s.pieces) }
    ensures { SteppedBeside (add_flagged (request_of q bytes.now) flag.0 i)
        (picker_in live rows.now words.now cells.now) t result
        out.old aside.old ignored.old out.new aside.new ignored.new }
{
    add_blocks(
        words,
        cells,
        rows,
        live,
        s,
        q,
        bytes,
        out,
        aside,
        ignored,
        flagged(t, flag),
        i,
    )
}

// Piece i, where it is free; any other number is passed over.
pub fn visit(
    words: &[u64],
    cells: &[u16],
    rows: &[u32],
    live: usize,
    s: Shape,
    q: PickRequest,
    bytes: &[u8],
    out: &mut [u64],
    aside: &mut [u64],
    ignored: &mut [bool],
    t: PickNumbers,
    i: usize,
    flag: PickerFlags,
) -> PickNumbers
    requires picks { Picks s live rows.now words.now cells.now q }
    requires piece_room { PieceRoom (picker_in live rows.now words.now cells.now) t out.old aside.old ignored.old }
    requires le_left { 1 ≤ t.left }
    ensures { SteppedBeside (visit (request_of q bytes.now) flag.0 i)
        (picker_in live rows.now words.now cells.now) t result
        out.old aside.old ignored.old out.new aside.new ignored.new }
{
    if is_piece_free(cells, s, q, bytes, i) {
        return add_flagged(
            words, cells, rows, live, s, q, bytes, out, aside, ignored, t, i, flag,
        );
    }
    t
}

// A piece of the list: only its bit is left to ask.
pub fn visit_listed(
    words: &[u64],
    cells: &[u16],
    rows: &[u32],
    live: usize,
    s: Shape,
    q: PickRequest,
    bytes: &[u8],
    out: &mut [u64],
    aside: &mut [u64],
    ignored: &mut [bool],
    t: PickNumbers,
    i: usize,
    flag: PickerFlags,
) -> PickNumbers
    requires picks { Picks s live rows.now words.now cells.now q }
    requires piece_room { PieceRoom (picker_in live rows.now words.now cells.now) t out.old aside.old ignored.old }
    requires le_left { (1 ≤ t.left) × OnlyBit (request_of q bytes.now) (picker_in live rows.now words.now cells.now) i }
    ensures { SteppedBeside (visit (request_of q bytes.now) flag.0 i)
        (picker_in live rows.now words.now cells.now) t result
        out.old aside.old ignored.old out.new aside.new ignored.new }
{
    if has_bit(bytes, q, i) {
        return add_flagged(
            words, cells, rows, live, s, q, bytes, out, aside, ignored, t, i, flag,
        );
    }
    t
}

// The same below the top priority: the others were walked before.
pub fn visit_below_top(
    words: &[u64],
    cells: &[u16],
    rows: &[u32],
    live: usize,
    s: Shape,
    q: PickRequest,
    bytes: &[u8],
    out: &mut [u64],
    aside: &mut [u64],
    ignored: &mut [bool],
    t: PickNumbers,
    i: usize,
    flag: PickerFlags,
) -> PickNumbers
    requires picks { Picks s live rows.now words.now cells.now q }
    requires piece_room { PieceRoom (picker_in live rows.now words.now cells.now) t out.old aside.old ignored.old }
    requires le_left { (1 ≤ t.left) × (i < s.pieces) }
    ensures { SteppedBeside (visit_below_top (request_of q bytes.now) flag.0 i)
        (picker_in live rows.now words.now cells.now) t result
        out.old aside.old ignored.old out.new aside.new ignored.new }
{
    if priority(cells, s, i) == 7 {
        return t;
    }
    visit(
        words, cells, rows, live, s, q, bytes, out, aside, ignored, t, i, flag,
    )
}

// A sequential pick has walked over piece i.
pub fn in_range(words: &[u64], s: Shape, q: PickRequest, bytes: &[u8], i: usize) -> bool
    requires { WordsSpan s words.now }
    ensures { HeadSays words.now (λ d. in_range (request_of q bytes.now) d i) result }
{
    if q.options.contains(PickerOptions::SEQUENTIAL) {
        let n = usize_to_u64(i);
        return (cursor(words, s) <= n) & (n < reverse_cursor(words, s));
    }
    false
}

// Piece i, outside that range.
pub fn visit_outside(
    words: &[u64],
    cells: &[u16],
    rows: &[u32],
    live: usize,
    s: Shape,
    q: PickRequest,
    bytes: &[u8],
    out: &mut [u64],
    aside: &mut [u64],
    ignored: &mut [bool],
    t: PickNumbers,
    i: usize,
    flag: PickerFlags,
) -> PickNumbers
    requires picks { Picks s live rows.now words.now cells.now q }
    requires piece_room { PieceRoom (picker_in live rows.now words.now cells.now) t out.old aside.old ignored.old }
    requires le_left { 1 ≤ t.left }
    ensures { SteppedBeside (visit_outside (request_of q bytes.now) flag.0 i)
        (picker_in live rows.now words.now cells.now) t result
        out.old aside.old ignored.old out.new aside.new ignored.new }
{
    if in_range(words, s, q, bytes, i) {
        return t;
    }
    visit(
        words, cells, rows, live, s, q, bytes, out, aside, ignored, t, i, flag,
    )
}
