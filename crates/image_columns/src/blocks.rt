// The blocks of a partial, which stand thirteen bytes apart behind its record.
ghost use Rattle.std.specs.Prelude.{◌+◌, ◌*◌, ◌≤◌, ◌<◌, length};
ghost use Rattle.memory_layout.specs.Bounds.{Spans};
ghost use Rattle.image_columns.specs.Columns.{BlocksStored};

use crate::offsets::{cells_start, peers_start};
use image_lay_blocks::lay_blocks;
use memory_layout::Shape;

// `many` blocks from `start` on become the first blocks of place p: peers into words; state, num_peers and has-peer into cells.
pub fn store_blocks(
    bytes: &[u8],
    start: usize,
    many: usize,
    s: Shape,
    p: usize,
    words: &mut [u64],
    cells: &mut [u16],
)
    requires spans { Spans s words.old cells.old }
    requires p_lt_places { (p < s.places) × (many ≤ s.blocks) × (1 ≤ many) × (start + 13 * many ≤ length bytes.now) }
    ensures { BlocksStored s p start many bytes.now words.old cells.old
        words.new cells.new }
{
    let peers = peers_start(s, p);
    let states = cells_start(s, 0, p);
    let counts = cells_start(s, 1, p);
    let has = cells_start(s, 2, p);
    lay_blocks(bytes, start, many, words, peers, cells, states, counts, has);
}
