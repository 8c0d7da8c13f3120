// How long a record's body is: one table, read by kind.
ghost use Rattle.std.specs.Prelude.{◌≡◌, ◌≤◌};
ghost use Rattle.model.specs.image.Image.{body_length};

// Head, piece, partial, block, extent, list place, pick.
const BODY_LENGTHS: [usize; 7] = [23, 9, 5, 12, 4, 4, 17];

pub fn body_length(kind: usize) -> usize
    requires { (1 ≤ kind) × (kind ≤ 7) }
    ensures { result ≡ body_length kind }
{
    BODY_LENGTHS[kind - 1]
}
