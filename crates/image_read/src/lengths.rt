// Whether the buffers are long enough for the picker of a geometry.
ghost use Rattle.std.specs.Prelude.{◌≡◌};
ghost use Rattle.model.specs.Memory.{is_short};
ghost use Rattle.geometry_needs.specs.Needs.{memory_of};

use geometry_needs::memory_needed;
use types::usize_to_u64;

// One of them is shorter than is needed.
pub fn is_short(words: usize, cells: usize, partials: usize, total: u64, size: u64) -> bool
    ensures { result ≡ is_short (record { words = words; cells = cells; partials = partials }) (memory_of total size) }
{
    let need = memory_needed(total, size);
    (usize_to_u64(words) < need.words)
        | ((usize_to_u64(cells) < need.cells) | (usize_to_u64(partials) < need.partials))
}
