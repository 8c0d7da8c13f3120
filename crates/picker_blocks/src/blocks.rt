// 4 and 5 of the table, of a block.
ghost use Rattle.memory_layout.specs.Bounds.{WordsSpan, ShapeOf};
ghost use Rattle.picker_blocks.specs.BlockJudges.{BlockJudged};

use memory_layout::Shape;
use memory_piece_blocks::blocks_in_piece;
use types::Refusal;

// Draws enough, such a piece, and such a block of it.
pub fn judge_block(
    words: &[u64],
    s: Shape,
    draws: &[u32],
    i: usize,
    j: usize,
) -> Result<(), Refusal>
    requires { (WordsSpan s words.now) × (ShapeOf s words.now) }
    ensures { BlockJudged s words.now draws.now i j result }
{
    if draws.len() < 4352 {
        return Err(Refusal::FewDraws);
    }
    if s.pieces <= i {
        return Err(Refusal::OutOfRange);
    }
    if blocks_in_piece(words, s, i) <= j {
        return Err(Refusal::OutOfRange);
    }
    Ok(())
}
