// The counts of a partial's blocks stored: three columns of 512, requested, being written and finished.
ghost use Rattle.std.specs.Prelude.{◌≡◌, ◌<◌, length};
ghost use Rattle.check_blocks.specs.Rows.{counts_put};

use crate::blocks::Counts;

// Partial k has these counts.
pub fn set_counts(counts: &mut [u16], k: usize, c: Counts)
    requires { (k < 512) × (length counts.old ≡ 1536) }
    ensures { counts.new ≡ counts_put counts.old k c }
{
    counts[k] = c.requested;
    counts[512 + k] = c.writing;
    counts[1024 + k] = c.finished;
}
