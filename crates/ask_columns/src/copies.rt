// How many copies of the torrent there are: the least copies of a piece, and how many pieces have more, kept together in one pass that goes
// a stretch of pieces at a time. Copies are added and compared in the cells' 16 bits, so that a stretch is taken many pieces at once.
ghost use Rattle.std.specs.Prelude.{◌≡◌, ◌+◌, ◌≤◌, ◌<◌, ltb};
ghost use Rattle.model.specs.Lists.{bit, least, count};
ghost use Rattle.model.specs.ask.Questions.{reply_picker, distributed_copies};
ghost use Rattle.memory_layout.specs.Bounds.{CellsSpan};
ghost use Rattle.memory_layout.specs.Standing.{StandsBeside};
ghost use Rattle.ask_picker.specs.Telling.{BothSay};
ghost use Rattle.ask_columns.specs.Copies.{copies_held, copies_from, least_of, FewCopies, LeastIn, copies_reply};

use memory_fields::seeds;
use memory_layout::{Shape, piece_cell};
use types::{u16_to_u64, u16_to_usize, usize_to_u64};

// The copies of the piece that has fewest, and thousandths of the pieces that have more.
#[repr(C)]
#[derive(Drop)]
pub struct DistributedCopies {
    pub integer: u64,
    pub fraction: u64,
}

// The least copies so far, and how many pieces have more.
#[derive(Drop)]
pub struct Least {
    pub copies: u16,
    pub more: usize,
}

// Pieces of a stretch.
const STRETCH: usize = 128;

// Its peers, one more where it is flushed.
fn copies_at(cells: &[u16], s: Shape, i: usize) -> u16
    requires cells_span { CellsSpan s cells.now }
    requires few_copies { FewCopies cells.now s.pieces }
    requires i_lt_pieces { i < s.pieces }
    ensures { result ≡ copies_held cells.now s.pieces i }
{
    piece_cell(cells, s, 0, i) + piece_cell(cells, s, 3, i)
}

fn lesser(a: u16, b: u16) -> u16
    ensures { result ≡ least a b }
{
    a.min(b)
}

// 1 where there are more copies than the least.
fn above(lowest: u16, copies: u16) -> u16
    ensures { result ≡ bit (ltb lowest copies) }
{
    u16::from(lowest < copies)
}

// The least of a number and of the copies of a stretch.
fn least_from(cells: &[u16], s: Shape, i: usize, many: usize, start: u16) -> u16
    requires cells_span { CellsSpan s cells.now }
    requires few_copies { FewCopies cells.now s.pieces }
    requires many_bound { i + many ≤ s.pieces }
    ensures { result ≡ least_of start (copies_from cells.now s.pieces i many) }
{
    let mut lowest = start;
    for k in 0..many {
        lowest = lesser(lowest, copies_at(cells, s, i + k));
    }
    lowest
}

// How many of a stretch have more than the least.
fn more_from(cells: &[u16], s: Shape, i: usize, many: usize, lowest: u16) -> u16
    requires cells_span { CellsSpan s cells.now }
    requires few_copies { FewCopies cells.now s.pieces }
    requires many_bound { i + many ≤ s.pieces }
    ensures { result ≡ count (ltb lowest) (copies_from cells.now s.pieces i many) }
{
    let mut more = 0;
    for k in 0..many {
        more = more + above(lowest, copies_at(cells, s, i + k));
    }
    more
}

// The first i pieces and a stretch more. Where that has a new least, all before it have more.
fn lower(cells: &[u16], s: Shape, i: usize, many: usize, before: Least) -> Least
    requires cells_span { CellsSpan s cells.now }
    requires few_copies { FewCopies cells.now s.pieces }
    requires many_bound { i + many ≤ s.pieces }
    requires least_in { LeastIn cells.now s.pieces i before }
    ensures { LeastIn cells.now s.pieces (i + many) result }
{
    let lowest = least_from(cells, s, i, many, before.copies);
    let more = u16_to_usize(more_from(cells, s, i, many, lowest));
    if lowest < before.copies {
        return Least {
            copies: lowest,
            more: i + more,
        };
    }
    Least {
        copies: lowest,
        more: before.more + more,
    }
}

// Over all pieces: whole stretches, of a length that the compiler knows, and behind them the rest, which may be a whole one too.
fn least_copies(cells: &[u16], s: Shape) -> Least
    requires cells_span { CellsSpan s cells.now }
    requires few_copies { FewCopies cells.now s.pieces }
    ensures { LeastIn cells.now s.pieces s.pieces result }
{
    let mut least = Least {
        copies: 65535,
        more: 0,
    };
    let stretches = s.pieces.saturating_sub(1) / STRETCH;
    for k in 0..stretches {
        least = lower(cells, s, k * STRETCH, STRETCH, least);
    }
    let i = stretches * STRETCH;
    lower(cells, s, i, s.pieces - i, least)
}

pub fn distributed_copies(words: &[u64], cells: &[u16], s: Shape) -> DistributedCopies
    requires { StandsBeside s words.now cells.now }
    ensures { BothSay s words.now cells.now (λ d. reply_picker d distributed_copies) (copies_reply result) }
{
    let least = least_copies(cells, s);
    DistributedCopies {
        integer: u16_to_u64(least.copies) + seeds(words, s),
        fraction: usize_to_u64(least.more) * 1000 / usize_to_u64(s.pieces),
    }
}
