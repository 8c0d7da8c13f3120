// The span of pieces around one that holds the run.
ghost use Rattle.std.specs.Prelude.{◌≡◌, cond, ◌+◌, ◌-◌, ◌%◌, ◌≤◌, ◌<◌};
ghost use Rattle.model.specs.Lists.{least};
ghost use Rattle.model.specs.pick.Blocks.{down_by, up_by, span_of};
ghost use Rattle.memory_fields.specs.Reading.{CellsSay};
ghost use Rattle.pick_state.specs.Requests.{request_of};
ghost use Rattle.pick_free.specs.Picking.{PicksCells};
ghost use Rattle.pick_free.specs.Spans.{span_is, Expanded};

use crate::pieces::can_pick;
use memory_layout::Shape;
use pick_state::{PickNumbers, PickRequest, whole_pieces};
use types::PickerOptions;

// The pieces from `first` to `end`, without the end.
#[derive(Drop)]
pub struct Span {
    pub first: usize,
    pub end: usize,
}

// The difference, and 0 where it is below.
pub fn saturating_sub(a: usize, b: usize) -> usize
    ensures { result ≡ a - b }
{
    a.saturating_sub(b)
}

// Down from piece i, by n at most, while the piece below can be picked.
fn down_by(cells: &[u16], s: Shape, q: PickRequest, bytes: &[u8], n: usize, i: usize) -> usize
    requires picks_cells { PicksCells s cells.now q }
    requires n_le_i { n ≤ i }
    ensures { (CellsSay s cells.now (λ d. down_by (request_of q bytes.now) d n i) result) × (result ≤ i) }
{
    for k in (i - n..i).rev() {
        if !can_pick(cells, s, q, bytes, k) {
            return k + 1;
        }
    }
    i - n
}

// Up from piece k, by n at most, while pieces can be picked.
fn up_by(cells: &[u16], s: Shape, q: PickRequest, bytes: &[u8], n: usize, k: usize) -> usize
    requires picks_cells { PicksCells s cells.now q }
    requires n_bound { k + n ≤ 4294967296 }
    ensures { CellsSay s cells.now (λ d. up_by (request_of q bytes.now) d n k) result }
{
    for end in k..k + n {
        if !can_pick(cells, s, q, bytes, end) {
            return end;
        }
    }
    k + n
}

// The lowest piece that a span of n pieces around piece i may start at.
fn lowest_start(aligned: bool, i: usize, n: usize) -> usize
    requires { (0 < n) × (i < 4096) }
    ensures { (result ≡ cond aligned (i - i % n) (i + 1 - n)) × (result ≤ i) }
{
    if aligned {
        return i - i % n;
    }
    saturating_sub(i + 1, n)
}

// Where a span of n pieces may end: behind its lowest piece where spans are aligned, else behind its first; no further than the last piece.
fn highest_end(aligned: bool, lowest: usize, first: usize, n: usize, pieces: usize) -> usize
    requires { (lowest < 4096) × (first < 4096) × (n < 8589934592) }
    ensures { result ≡ least (cond aligned lowest first + n) pieces }
{
    if aligned {
        return (lowest + n).min(pieces);
    }
    (first + n).min(pieces)
}

// A span of n pieces around piece i, as far as pieces can be picked.
fn span_of(cells: &[u16], s: Shape, q: PickRequest, bytes: &[u8], i: usize, n: usize) -> Span
    requires picks_cells { PicksCells s cells.now q }
    requires i_lt_pieces { (i < s.pieces) × (0 < n) × (n < 8589934592) }
    ensures { CellsSay s cells.now (λ d. span_of (request_of q bytes.now) d i n) (span_is result) }
{
    let aligned = q.options.contains(PickerOptions::ALIGN_EXPANDED_PIECES);
    let lowest = lowest_start(aligned, i, n);
    let first = down_by(cells, s, q, bytes, i - lowest, i);
    let most = highest_end(aligned, lowest, first, n, s.pieces);
    let more = saturating_sub(most, i + 1);
    let end = up_by(cells, s, q, bytes, more, i + 1);
    Span {
        first: first,
        end: end,
    }
}

// The span around piece i that holds the run; the piece alone where nothing is left of it.
pub fn expand_piece(
    cells: &[u16],
    s: Shape,
    q: PickRequest,
    bytes: &[u8],
    t: PickNumbers,
    i: usize,
) -> Span
    requires picks_cells { PicksCells s cells.now q }
    requires i_lt_pieces { (i < s.pieces) × (t.asked < 4294967296) }
    ensures { Expanded s cells.now q bytes.now t i result }
{
    let n = whole_pieces(t, s.blocks);
    if n == 0 {
        return Span {
            first: i,
            end: i + 1,
        };
    }
    span_of(cells, s, q, bytes, i, n)
}
