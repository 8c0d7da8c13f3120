// The ranks of all pieces, by the columns of cells that they stand in.
ghost use Rattle.std.specs.Prelude.{◌≤◌, ◌<◌, length};
ghost use Rattle.memory_layout.specs.Bounds.{CellsSpan};
ghost use Rattle.check_pieces.specs.Rows.{Level, rank_in};
ghost use Rattle.image_lay.specs.Laid.{Laid};
ghost use Rattle.image_store.specs.Ranks.{RowsRanked, CellsRanked, rank_held};

use check_pieces::rank_in;
use memory_layout::{Shape, piece_column};
use types::u64_to_u16;

// Each row of four columns. A turn has no branch, so that the compiler takes many rows at a time.
fn rank_rows(
    counts: &[u16],
    states: &[u16],
    priorities: &[u16],
    flushed: &[u16],
    seeds: u16,
    ranks: &mut [u16],
)
    requires level { Level counts.now states.now priorities.now flushed.now }
    requires rows_ranked { (RowsRanked counts.now states.now priorities.now) × (length counts.now ≤ length ranks.old) }
    ensures { Laid 0 (length counts.now)
        (rank_in seeds counts.now states.now priorities.now flushed.now)
        ranks.old ranks.new }
{
    let n = counts.len();
    for i in 0..n {
        ranks[i] = rank_in(seeds, counts[i], states[i], priorities[i], flushed[i]);
    }
}

// The first ranks become those of the pieces.
pub fn rank_pieces(cells: &[u16], s: Shape, seeds: u64, ranks: &mut [u16])
    requires cells_span { (CellsSpan s cells.now) × (CellsRanked s.pieces cells.now) }
    requires seeds_bound { (seeds < 65536) × (s.pieces ≤ length ranks.old) }
    ensures { Laid 0 s.pieces (rank_held seeds cells.now s.pieces) ranks.old ranks.new }
{
    let counts = piece_column(cells, s, 0);
    let states = piece_column(cells, s, 1);
    let priorities = piece_column(cells, s, 2);
    let flushed = piece_column(cells, s, 3);
    rank_rows(
        counts,
        states,
        priorities,
        flushed,
        u64_to_u16(seeds),
        ranks,
    );
}
