// Where a number of each column stands.
ghost use Rattle.std.specs.Prelude.{◌≡◌, ◌+◌, ◌*◌, ◌<◌};
ghost use Rattle.memory_layout.specs.Offsets.{piece_word_at, peer_at, piece_cell_at, block_cell_at};
ghost use Rattle.memory_layout.specs.Bounds.{Sizes};

use crate::shape::Shape;

// Word column f of piece i: 0 pad bytes, 1 the list.
pub fn piece_word_at(s: Shape, f: usize, i: usize) -> usize
    requires sizes { Sizes s }
    requires f_bound { (f < 2) × (i < s.pieces) }
    ensures { result ≡ piece_word_at s.pieces f i }
{
    16 + (f * s.pieces + i)
}

// Where the list starts.
pub fn list_start(s: Shape) -> usize
    requires { Sizes s }
    ensures { result ≡ piece_word_at s.pieces 1 0 }
{
    16 + s.pieces
}

// The peer of block j of place p.
pub fn peer_at(s: Shape, p: usize, j: usize) -> usize
    requires sizes { Sizes s }
    requires p_lt_places { (p < s.places) × (j < s.blocks) }
    ensures { result ≡ peer_at s.pieces s.blocks p j }
{
    16 + 2 * s.pieces + (p * s.blocks + j)
}

// Cell column f of piece i: 0 peer count, 1 state, 2 priority, 3 flushed.
pub fn piece_cell_at(s: Shape, f: usize, i: usize) -> usize
    requires sizes { Sizes s }
    requires f_bound { (f < 4) × (i < s.pieces) }
    ensures { result ≡ piece_cell_at s.pieces f i }
{
    f * s.pieces + i
}

// Where cell column f of the blocks of place p starts: 0 state, 1 num_peers, 2 has-peer.
pub fn block_start(s: Shape, f: usize, p: usize) -> usize
    requires sizes { Sizes s }
    requires f_bound { (f < 3) × (p < s.places) }
    ensures { result ≡ block_cell_at s.pieces s.blocks f p 0 }
{
    4 * s.pieces + (f * (s.places * s.blocks) + p * s.blocks)
}

// Cell column f of block j of place p.
pub fn block_cell_at(s: Shape, f: usize, p: usize, j: usize) -> usize
    requires sizes { Sizes s }
    requires f_bound { (f < 3) × (p < s.places) × (j < s.blocks) }
    ensures { result ≡ block_cell_at s.pieces s.blocks f p j }
{
    block_start(s, f, p) + j
}
