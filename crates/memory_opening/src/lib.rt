// A partial opened for a piece: the lowest free place, its blocks as those of a piece just opened, one partial more. The records are not
// written: the public call puts in the one that is answered, and the contract speaks of the picker with it there.
#![tactic(auto)]

ghost use Rattle.std.specs.Prelude.{◌≡◌, ◌<◌, ◌≤◌, length};
ghost use Rattle.model.specs.State.{payload_blocks_in_piece};
ghost use Rattle.model.specs.change.Partials.{fresh_block};
ghost use Rattle.memory_records.specs.Rows.{records_in};
ghost use Rattle.memory_layout.specs.Decode.{head_word, blocks_of, state_from};
ghost use Rattle.memory_layout.specs.Bounds.{CellsSpan, InBounds};
ghost use Rattle.memory_fields.specs.Reading.{WordsSay};
ghost use Rattle.memory_opening.specs.Opening.{Fresh, Opened};

use memory_blocks::fresh_block;
use memory_layout::{Shape, set_head_word};
use memory_places::free_place;
use memory_records::DownloadingPiece;
use types::{usize_to_u32, usize_to_u64};

// The number of the state of block j of a piece just opened: Finished where it holds pad bytes alone.
fn fresh_state(payload: usize, j: usize) -> u16
    ensures { (state_from result ≡ (fresh_block payload j).state) × (result ≤ 3) }
{
    if j < payload { 0 } else { 3 }
}

// The first `many` blocks of place p as those of a piece just opened.
fn fresh_blocks(cells: &mut [u16], s: Shape, p: usize, many: usize, payload: usize)
    requires cells_span { CellsSpan s cells.old }
    requires p_lt_places { (p < s.places) × (many ≤ s.blocks) }
    ensures { Fresh s cells.old cells.new p many payload }
{
    for j in 0..many {
        let state = fresh_state(payload, j);
        fresh_block(cells, s, p, j, state);
    }
}

// The record of a partial for piece i, which has `many` blocks, `payload` of them with more than pad bytes. With it put in, the partial
// stands; the piece's state is a later store's.
pub fn add_partial(
    words: &mut [u64],
    cells: &mut [u16],
    rows: &[u32],
    live: usize,
    s: Shape,
    i: usize,
    many: usize,
    payload: usize,
) -> DownloadingPiece
    requires in_bounds { InBounds s (records_in live rows.now) words.old cells.old }
    requires live_value { (live ≡ head_word words.old 7) × (live < s.places) × (length rows.now ≡ 1536) }
    requires i_lt_pieces { i < s.pieces }
    requires many_value { (many ≡ blocks_of words.old i) × WordsSay s words.old (λ d. payload_blocks_in_piece d i) payload }
    ensures { Opened s i live rows.now words.old cells.old words.new
        cells.new result }
{
    let p = free_place(rows, live, s);
    fresh_blocks(cells, s, p, many, payload);
    set_head_word(words, 7, usize_to_u64(live + 1));
    DownloadingPiece {
        index: usize_to_u32(i),
        info_idx: usize_to_u32(p),
        flags: 0,
    }
}
