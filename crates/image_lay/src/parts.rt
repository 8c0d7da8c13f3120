// Several numbers that are held in one, of which one part of each is laid out: the compiler takes many at once.
ghost use Rattle.std.specs.Prelude.{◌≡◌, ◌+◌, ◌/◌, ◌%◌, ◌≤◌, ◌<◌, length};
ghost use Rattle.image_lay.specs.Laid.{Laid};
ghost use Rattle.image_lay.specs.Quads.{part_of};

fn part(q: u32, below: u32, size: u32) -> u16
    requires { (0 < below) × (0 < size) × (size ≤ 65536) }
    ensures { result ≡ q / below % size }
{
    (q / below % size) as u16
}

// The part that is less than `size`, above one that is less than `below`.
pub fn lay_part(quads: &[u32], many: usize, below: u32, size: u32, cells: &mut [u16], start: usize)
    requires below_nonzero { (0 < below) × (0 < size) × (size ≤ 65536) }
    requires many_in_bounds { (many ≤ length quads.now) × (start + many ≤ length cells.old) }
    ensures { Laid start many (part_of below size quads.now) cells.old cells.new }
{
    for j in 0..many {
        cells[start + j] = part(quads[j], below, size);
    }
}
