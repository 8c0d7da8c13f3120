// A peer more of each piece: one pass without a branch over the peer counts, which are the first column of the cells. It asks for room in
// each count, which a peer less does not: so there are two passes, and not one that takes the change.
ghost use Rattle.model.specs.change.Changes.{inc_peer_count, all_pieces};
ghost use Rattle.memory_layout.specs.Bounds.{CellsSpan};
ghost use Rattle.memory_layout.specs.Stores.{CellsBecame};
ghost use Rattle.change_seeds.specs.Seeds.{CountsFit};

use memory_layout::Shape;

pub fn raise_all(cells: &mut [u16], s: Shape)
    requires cells_span { CellsSpan s cells.old }
    requires counts_fit { CountsFit s cells.old }
    ensures { CellsBecame s (all_pieces inc_peer_count) cells.old cells.new }
{
    let n = s.pieces;
    for i in 0..n {
        cells[i] = cells[i] + 1;
    }
}
