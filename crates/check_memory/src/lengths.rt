// The lengths of the three buffers.
ghost use Rattle.std.specs.Prelude.{◌≡◌, not};
ghost use Rattle.memory_layout.specs.Bounds.{ShapeOf};
ghost use Rattle.memory_layout.specs.Good.{short};

use memory_layout::Shape;

// Each buffer is as long as the geometry needs; `lent` is the number of records.
pub fn fits(words: &[u64], cells: &[u16], lent: usize, s: Shape) -> bool
    requires { ShapeOf s words.now }
    ensures { not result ≡ short lent words.now cells.now }
{
    let blocks = s.places * s.blocks;
    if words.len() < 16 + 2 * s.pieces + blocks {
        return false;
    }
    if cells.len() < 4 * s.pieces + 3 * blocks {
        return false;
    }
    s.places <= lent
}
