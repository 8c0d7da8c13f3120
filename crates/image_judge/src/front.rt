// The image that stands in front of the bytes, part by part.
ghost use Rattle.std.specs.Prelude.{◌≡◌, ◌≤◌, length};
ghost use Rattle.model.specs.Bep3.{num_pieces};
ghost use Rattle.model.specs.image.Image.{get_picker};
ghost use Rattle.image_pieces.specs.Heads.{Headed};
ghost use Rattle.image_pieces.specs.Pieces.{PiecesStand};
ghost use Rattle.image_pieces.specs.Places.{Went};
ghost use Rattle.image_judge.specs.Fronts.{TailRead, BodyRead};

use geometry::{blocks_per_piece, num_pieces};
use geometry_needs::num_extents;
use image_partials::read_partials;
use image_pieces::{Head, read_head, read_pieces};
use image_tail::{read_extents, read_listing};
use types::{u64_to_usize, usize_to_u64};

// Extents and list, behind partials that end at `at`.
fn read_tail(
    bytes: &[u8],
    at: usize,
    head: Head,
    n: usize,
    ranks: &mut [u16],
) -> Result<usize, usize>
    requires pieces_stand { PiecesStand head n bytes.now ranks.old }
    requires n_bound { (n ≤ 4096) × (n ≤ length ranks.old) }
    requires at_in_bounds { at ≤ length bytes.now }
    ensures { TailRead at head n bytes.now result }
{
    let limit = num_extents(usize_to_u64(n), blocks_per_piece(head.size));
    let end = read_extents(bytes, at, limit)?;
    read_listing(bytes, end, head.dirty, n, ranks)
}

// All behind the pieces.
fn read_body(bytes: &[u8], head: Head, n: usize, ranks: &mut [u16]) -> Result<usize, usize>
    requires headed { (Headed head bytes.now) × (PiecesStand head n bytes.now ranks.old) }
    requires n_value { (n ≡ num_pieces head.total head.size) × (n ≤ length ranks.old) }
    ensures { BodyRead head n bytes.now result }
{
    let end = read_partials(bytes, head, n)?;
    read_tail(bytes, end, head, n, ranks)
}

// The whole, up to where it ends: the answer is that place, the error that of the first record at fault.
pub fn read_front(bytes: &[u8]) -> Result<usize, usize>
    ensures { Went (get_picker bytes.now) bytes.now result }
{
    let Some(head) = read_head(bytes) else {
        return Err(0);
    };
    let n = u64_to_usize(num_pieces(head.total, head.size));
    let mut ranks = [0u16; 4096];
    read_pieces(bytes, head, n, &mut ranks)?;
    read_body(bytes, head, n, &mut ranks)
}
