// Where the columns of the blocks at a place start.
ghost use Rattle.std.specs.Prelude.{◌≡◌, ◌<◌};
ghost use Rattle.memory_layout.specs.Offsets.{peer_at, block_cell_at};
ghost use Rattle.memory_layout.specs.Bounds.{Sizes};

use memory_layout::Shape;

// The peers of place p.
pub fn peers_start(s: Shape, p: usize) -> usize
    requires { (Sizes s) × (p < s.places) }
    ensures { result ≡ peer_at s.pieces s.blocks p 0 }
{
    16 + 2 * s.pieces + p * s.blocks
}

// Cell column f of place p: 0 state, 1 num_peers, 2 has-peer.
pub fn cells_start(s: Shape, f: usize, p: usize) -> usize
    requires { (Sizes s) × (f < 3) × (p < s.places) }
    ensures { result ≡ block_cell_at s.pieces s.blocks f p 0 }
{
    4 * s.pieces + (f * (s.places * s.blocks) + p * s.blocks)
}
