// A peer less of each piece: one pass without a branch over the peer counts, which are the first column of the cells.
ghost use Rattle.model.specs.change.Changes.{dec_peer_count, all_pieces};
ghost use Rattle.memory_layout.specs.Bounds.{CellsSpan};
ghost use Rattle.memory_layout.specs.Stores.{CellsBecame};

use memory_layout::Shape;

// A piece that had no peer has none then, too.
pub fn lower_all(cells: &mut [u16], s: Shape)
    requires { CellsSpan s cells.old }
    ensures { CellsBecame s (all_pieces dec_peer_count) cells.old cells.new }
{
    let n = s.pieces;
    for i in 0..n {
        cells[i] = cells[i].saturating_sub(1);
    }
}
