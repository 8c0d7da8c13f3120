// Which extents are recorded, and one more of them.
ghost use Rattle.std.specs.Prelude.{◌<◌, ◌≤◌};
ghost use Rattle.model.specs.Lists.{member};
ghost use Rattle.model.specs.State.{max_extents};
ghost use Rattle.model.specs.change.Changes.{record_downloading_piece};
ghost use Rattle.memory_layout.specs.Decode.{head_word};
ghost use Rattle.memory_layout.specs.Bounds.{WordsSpan, Spans};
ghost use Rattle.memory_fields.specs.Reading.{HeadSays};
ghost use Rattle.memory_fields.specs.Storing.{StoredBeside};

use crate::neighbours::worth_recording;
use geometry_needs::extent_for;
use memory_fields::{num_recent_extents, recent_extent};
use memory_head_stores::push_recent_extent;
use memory_layout::Shape;
use types::{MAX_EXTENTS, MAX_PIECE_AFFINITY_EXTENT, PieceIndex, usize_to_u64};

// Extent e is recorded.
pub fn is_recent(words: &[u64], s: Shape, e: u64) -> bool
    requires words_span { WordsSpan s words.now }
    requires words_bound { head_word words.now 8 ≤ max_extents }
    ensures { HeadSays words.now (λ d. member e d.recent_extents) result }
{
    let many = num_recent_extents(words, s);
    for k in 0..many {
        if e == recent_extent(words, s, k) {
            return true;
        }
    }
    false
}

// Piece i's extent becomes the latest: none where a piece has 256 blocks, none twice, no sixth, and only one that is worth it.
pub fn record_downloading_piece(words: &mut [u64], cells: &[u16], s: Shape, i: usize)
    requires spans { Spans s words.old cells.now }
    requires i_lt_pieces { (i < s.pieces) × (1 ≤ s.blocks) }
    requires words_bound { head_word words.old 8 ≤ max_extents }
    ensures { StoredBeside s (record_downloading_piece i) cells.now words.old words.new }
{
    let b = usize_to_u64(s.blocks);
    if b >= MAX_PIECE_AFFINITY_EXTENT {
        return;
    }
    let e = extent_for(b, PieceIndex::at(i));
    if is_recent(words, s, e) {
        return;
    }
    if usize_to_u64(num_recent_extents(words, s)) >= MAX_EXTENTS {
        return;
    }
    if !worth_recording(cells, s, i) {
        return;
    }
    push_recent_extent(words, s, e);
}
