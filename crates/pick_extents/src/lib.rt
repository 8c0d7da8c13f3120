// The pieces of the recent extents, in a pick that goes by rarity; one finished extent is forgotten, the last found.
#![tactic(auto)]

ghost use Rattle.std.specs.Prelude.{◌≡◌, true, ◌+◌, ◌≤◌, ◌<◌};
ghost use Rattle.model.specs.Lists.{range, every, walk};
ghost use Rattle.model.specs.State.{max_extents, piece_at};
ghost use Rattle.model.specs.Options.{extent_affinity};
ghost use Rattle.model.specs.pick.Blocks.{spent};
ghost use Rattle.model.specs.pick.Pick.{visit_outside, extent_step, pick_extents};
ghost use Rattle.memory_layout.specs.Decode.{head_word};
ghost use Rattle.memory_layout.specs.Bounds.{WordsSpan, CellsSpan};
ghost use Rattle.memory_fields.specs.Reading.{CellsSay};
ghost use Rattle.memory_fields.specs.Storing.{WordsStored};
ghost use Rattle.memory_rows.specs.Lookup.{picker_in};
ghost use Rattle.pick_state.specs.Requests.{request_of};
ghost use Rattle.pick_free.specs.Picking.{Picks};
ghost use Rattle.pick_blocks.specs.Blocks.{PieceRoom};
ghost use Rattle.pick_visits.specs.Steps.{SteppedBeside};
ghost use Rattle.pick_extents.specs.Extents.{ExtentsBeside, FoundBelow, first_walk, walked_extents, forgotten, MovedBeside};

use geometry_needs::extent_pieces;
use memory_fields::{flushed, num_recent_extents, recent_extent};
use memory_head_stores::remove_recent_extent;
use memory_layout::Shape;
use pick_state::{PickNumbers, PickRequest};
use pick_visits::visit_outside;
use types::{PickerFlags, u64_to_usize, usize_to_u64};

// A walk over extents: what the pick has come to; whether an extent was found finished, and the place of the last one.
#[derive(Drop)]
pub struct ExtentWalk {
    pub numbers: PickNumbers,
    pub found: bool,
    pub place: usize,
}

// Every piece from `first` up to `end` is flushed.
fn all_flushed(cells: &[u16], s: Shape, first: usize, end: usize) -> bool
    requires cells_span { CellsSpan s cells.now }
    requires end_le_pieces { end ≤ s.pieces }
    ensures { CellsSay s cells.now (λ d. every (λ i. (piece_at d i).flushed) (range first end)) result }
{
    for i in first..end {
        if !flushed(cells, s, i) {
            return false;
        }
    }
    true
}

// The pieces from `first` up to `end` visited.
fn visit_extent(
    words: &[u64],
    cells: &[u16],
    rows: &[u32],
    live: usize,
    s: Shape,
    q: PickRequest,
    bytes: &[u8],
    out: &mut [u64],
    aside: &mut [u64],
    ignored: &mut [bool],
    t: PickNumbers,
    first: usize,
    end: usize,
) -> PickNumbers
    requires picks { Picks s live rows.now words.now cells.now q }
    requires piece_room { PieceRoom (picker_in live rows.now words.now cells.now) t out.old aside.old ignored.old }
    requires le_left { (1 ≤ t.left) × (end ≤ 4096) }
    ensures { SteppedBeside (walk (visit_outside (request_of q bytes.now) extent_affinity) spent (range first end))
        (picker_in live rows.now words.now cells.now) t result
        out.old aside.old ignored.old out.new aside.new ignored.new }
{
    let mut cur = t;
    for i in first..end {
        cur = visit_outside(
            words,
            cells,
            rows,
            live,
            s,
            q,
            bytes,
            out,
            aside,
            ignored,
            cur,
            i,
            PickerFlags::EXTENT_AFFINITY,
        );
        if cur.left == 0 {
            return cur;
        }
    }
    cur
}

// The pieces of the extent at place k. A finished one replaces the one found before; where no block is wanted none is looked at.
fn extent_step(
    words: &[u64],
    cells: &[u16],
    rows: &[u32],
    live: usize,
    s: Shape,
    q: PickRequest,
    bytes: &[u8],
    out: &mut [u64],
    aside: &mut [u64],
    ignored: &mut [bool],
    x: ExtentWalk,
    k: usize,
) -> ExtentWalk
    requires picks { Picks s live rows.now words.now cells.now q }
    requires piece_room { PieceRoom (picker_in live rows.now words.now cells.now) x.numbers out.old aside.old ignored.old }
    requires le_left { (1 ≤ x.numbers.left) × (k < head_word words.now 8) × FoundBelow k x }
    ensures extents_beside { ExtentsBeside (extent_step (request_of q bytes.now) k)
        (picker_in live rows.now words.now cells.now) x result
        out.old aside.old ignored.old out.new aside.new ignored.new }
    ensures found_below { FoundBelow (k + 1) result }
{
    let t = x.numbers;
    let e = recent_extent(words, s, k);
    let pieces = extent_pieces(usize_to_u64(s.pieces), usize_to_u64(s.blocks), e);
    let first = u64_to_usize(pieces.begin);
    let end = u64_to_usize(pieces.end);
    let r = visit_extent(
        words, cells, rows, live, s, q, bytes, out, aside, ignored, t, first, end,
    );
    if r.left == 0 {
        return ExtentWalk { numbers: r, ..x };
    }
    if all_flushed(cells, s, first, end) {
        return ExtentWalk {
            numbers: r,
            found: true,
            place: k,
        };
    }
    ExtentWalk { numbers: r, ..x }
}

// The recent extents in turn.
fn walk_extents(
    words: &[u64],
    cells: &[u16],
    rows: &[u32],
    live: usize,
    s: Shape,
    q: PickRequest,
    bytes: &[u8],
    out: &mut [u64],
    aside: &mut [u64],
    ignored: &mut [bool],
    t: PickNumbers,
) -> ExtentWalk
    requires picks { Picks s live rows.now words.now cells.now q }
    requires piece_room { PieceRoom (picker_in live rows.now words.now cells.now) t out.old aside.old ignored.old }
    requires le_left { 1 ≤ t.left }
    ensures extents_beside { ExtentsBeside (walked_extents (request_of q bytes.now) (picker_in live rows.now words.now cells.now))
        (picker_in live rows.now words.now cells.now) (first_walk t) result
        out.old aside.old ignored.old out.new aside.new ignored.new }
    ensures found_below { FoundBelow (head_word words.now 8) result }
{
    let n = num_recent_extents(words, s);
    let mut cur = ExtentWalk {
        numbers: t,
        found: false,
        place: 0,
    };
    for k in 0..n {
        cur = extent_step(
            words, cells, rows, live, s, q, bytes, out, aside, ignored, cur, k,
        );
        if cur.numbers.left == 0 {
            return cur;
        }
    }
    cur
}

// The extent at a place goes, where one was found.
fn forget_extent(words: &mut [u64], s: Shape, found: bool, place: usize)
    requires words_span { WordsSpan s words.old }
    requires place_bound { (found ≡ true → place < head_word words.old 8) × (head_word words.old 8 ≤ max_extents) }
    ensures { WordsStored s (forgotten found place) words.old words.new }
{
    if found {
        remove_recent_extent(words, s, place);
    }
}

// The recent extents, and one forgotten.
pub fn pick_extents(
    words: &mut [u64],
    cells: &[u16],
    rows: &[u32],
    live: usize,
    s: Shape,
    q: PickRequest,
    bytes: &[u8],
    out: &mut [u64],
    aside: &mut [u64],
    ignored: &mut [bool],
    t: PickNumbers,
) -> PickNumbers
    requires picks { Picks s live rows.now words.old cells.now q }
    requires piece_room { PieceRoom (picker_in live rows.now words.old cells.now) t out.old aside.old ignored.old }
    requires le_left { 1 ≤ t.left }
    ensures { MovedBeside (pick_extents (request_of q bytes.now)) s live rows.now words.old words.new cells.now q t result
        out.old aside.old ignored.old out.new aside.new ignored.new }
{
    let x = walk_extents(
        words, cells, rows, live, s, q, bytes, out, aside, ignored, t,
    );
    forget_extent(words, s, x.found, x.place);
    x.numbers
}
