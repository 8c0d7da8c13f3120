// The block that is asked about.
ghost use Rattle.std.specs.Prelude.{◌<◌};
ghost use Rattle.memory_layout.specs.Decode.{blocks_of};
ghost use Rattle.memory_rows.specs.Lookup.{picker_in};
ghost use Rattle.ask_picker.specs.Asked.{Asked};
ghost use Rattle.model.specs.change.Partials.{partial_of};
ghost use Rattle.model.specs.ask.Questions.{block_in};
ghost use Rattle.ask_block.specs.Blocks.{BlockTold};

use memory_blocks::{BlockInfo, get_block};
use memory_layout::Shape;
use memory_records::row;
use memory_rows::find;
use types::u32_to_usize;

// Block j of piece i.
pub fn block_of(
    words: &[u64],
    cells: &[u16],
    rows: &[u32],
    live: usize,
    s: Shape,
    i: usize,
    j: usize,
) -> Option<BlockInfo>
    requires asked { Asked s live rows.now words.now cells.now }
    requires i_lt_pieces { (i < s.pieces) × (j < blocks_of words.now i) }
    ensures { BlockTold (block_in (partial_of (picker_in live rows.now words.now cells.now) i) j) result }
{
    let k = find(rows, live, i)?;
    let place = u32_to_usize(row(rows, k).info_idx);
    Some(get_block(words, cells, s, place, j))
}
