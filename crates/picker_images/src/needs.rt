// What a picker of a geometry needs, of the numbers that `new` takes: 0 where the geometry is not valid.
ghost use Rattle.std.specs.Prelude.{◌≡◌};
ghost use Rattle.types.specs.Piece.{number_of};
ghost use Rattle.model.specs.Memory.{is_short};
ghost use Rattle.geometry_needs.specs.Needs.{memory_of, Lengths, bytes_for};
ghost use Rattle.memory_layout.specs.Good.{lengths};

use geometry_needs::Memory;
use types::{i32_to_usize, i64_to_u64, usize_to_u64};

// Lengths of the three buffers.
pub fn memory_needed(total_size: i64, piece_size: i32) -> Memory
    ensures { Lengths (memory_of (number_of total_size) (number_of piece_size)) result.words result.cells result.partials }
{
    geometry_needs::memory_needed(
        i64_to_u64(total_size),
        usize_to_u64(i32_to_usize(piece_size)),
    )
}

// Bytes that no image passes.
pub fn image_needed(total_size: i64, piece_size: i32) -> u64
    ensures { result ≡ bytes_for (number_of total_size) (number_of piece_size) }
{
    geometry_needs::image_needed(
        i64_to_u64(total_size),
        usize_to_u64(i32_to_usize(piece_size)),
    )
}

// A buffer is shorter than that; `lent` is the number of records.
pub fn is_short(words: &[u64], cells: &[u16], lent: usize, total: u64, size: u64) -> bool
    ensures { result ≡ is_short (lengths lent words.now cells.now) (memory_of total size) }
{
    let need = geometry_needs::memory_needed(total, size);
    (usize_to_u64(words.len()) < need.words)
        | ((usize_to_u64(cells.len()) < need.cells) | (usize_to_u64(lent) < need.partials))
}
