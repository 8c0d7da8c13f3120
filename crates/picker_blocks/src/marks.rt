// The judges of the marks: 4 and 5 of the block, then what each mark is refused for.
ghost use Rattle.std.specs.Prelude.{◌≡◌, ◌<◌};
ghost use Rattle.model.specs.ask.Questions.{block_test};
ghost use Rattle.model.specs.Calls.{num_peers_full, block_there, do_mark_as_downloading, do_mark_as_writing, do_mark_as_finished};
ghost use Rattle.memory_layout.specs.Decode.{blocks_of};
ghost use Rattle.memory_layout.specs.Bounds.{CellsSpan};
ghost use Rattle.memory_rows.specs.Lookup.{picker_in};
ghost use Rattle.ask_picker.specs.Asked.{Asked};
ghost use Rattle.picker_blocks.specs.MarkJudges.{NoneLeft, MarkJudged};

use crate::blocks::judge_block;
use ask_block::{block_of, is_requested};
use memory_fields::{flushed, state};
use memory_layout::Shape;
use types::Refusal;

// 6: block j of piece i may still be asked for, and as many peers as may be have asked.
fn num_peers_full(
    words: &[u64],
    cells: &[u16],
    rows: &[u32],
    live: usize,
    s: Shape,
    i: usize,
    j: usize,
) -> bool
    requires asked { Asked s live rows.now words.now cells.now }
    requires i_lt_pieces { (i < s.pieces) × (j < blocks_of words.now i) }
    ensures { result ≡ block_test num_peers_full
        (block_there (picker_in live rows.now words.now cells.now) i j) }
{
    let Some(x) = block_of(words, cells, rows, live, s, i, j) else {
        return false;
    };
    (x.state < 2) & (1000 <= x.num_peers)
}

// 10: piece i would need a partial more than may stand.
fn no_partial_left(cells: &[u16], live: usize, s: Shape, i: usize) -> bool
    requires cells_span { CellsSpan s cells.now }
    requires i_lt_pieces { i < s.pieces }
    ensures { NoneLeft s live cells.now i result }
{
    (state(cells, s, i) == 4) & (!flushed(cells, s, i) & (512 <= live))
}

// 4, 5, 6, 8 and 10.
pub fn judge_downloading(
    words: &[u64],
    cells: &[u16],
    rows: &[u32],
    live: usize,
    s: Shape,
    draws: &[u32],
    i: usize,
    j: usize,
) -> Result<(), Refusal>
    requires { Asked s live rows.now words.now cells.now }
    ensures { MarkJudged (picker_in live rows.now words.now cells.now)
        (λ peer options. do_mark_as_downloading i j peer options draws.now) result }
{
    judge_block(words, s, draws, i, j)?;
    if num_peers_full(words, cells, rows, live, s, i, j) {
        return Err(Refusal::TooManyPeers);
    }
    if flushed(cells, s, i) {
        return Err(Refusal::HavePiece);
    }
    if no_partial_left(cells, live, s, i) {
        return Err(Refusal::TooManyPartials);
    }
    Ok(())
}

// 4, 5 and 10.
pub fn judge_writing(
    words: &[u64],
    cells: &[u16],
    rows: &[u32],
    live: usize,
    s: Shape,
    draws: &[u32],
    i: usize,
    j: usize,
) -> Result<(), Refusal>
    requires { Asked s live rows.now words.now cells.now }
    ensures { MarkJudged (picker_in live rows.now words.now cells.now)
        (λ peer options. do_mark_as_writing i j peer draws.now) result }
{
    judge_block(words, s, draws, i, j)?;
    if no_partial_left(cells, live, s, i) {
        return Err(Refusal::TooManyPartials);
    }
    Ok(())
}

// 4, 5, 9 and 10.
pub fn judge_finished(
    words: &[u64],
    cells: &[u16],
    rows: &[u32],
    live: usize,
    s: Shape,
    draws: &[u32],
    i: usize,
    j: usize,
) -> Result<(), Refusal>
    requires { Asked s live rows.now words.now cells.now }
    ensures { MarkJudged (picker_in live rows.now words.now cells.now)
        (λ peer options. do_mark_as_finished i j peer draws.now) result }
{
    judge_block(words, s, draws, i, j)?;
    if is_requested(words, cells, rows, live, s, i, j) {
        return Err(Refusal::NotWriting);
    }
    if no_partial_left(cells, live, s, i) {
        return Err(Refusal::TooManyPartials);
    }
    Ok(())
}
