// The flags of a partial: bit 1 passed, 2 locked, 4 hashing.
ghost use Rattle.memory_partials.specs.Partials.{Flagged};

use memory_records::DownloadingPiece;

// The record with other flags, hashing as it was. With it in the place of r, its partial has them.
pub fn with_flags(r: DownloadingPiece, passed: bool, locked: bool) -> DownloadingPiece
    ensures { Flagged passed locked r result }
{
    let low = u32::from(passed);
    let middle = u32::from(locked);
    let high = r.flags / 4 % 2;
    DownloadingPiece {
        index: r.index,
        info_idx: r.info_idx,
        flags: low + 2 * middle + 4 * high,
    }
}
