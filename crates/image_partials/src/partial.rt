// One partial: its record, its blocks, and the state of its piece, which is judged at the last block.
ghost use Rattle.std.specs.Prelude.{◌≡◌, ◌+◌, ◌-◌, ◌≤◌, ◌<◌, length, leb};
ghost use Rattle.check_partials.specs.States.{state_by};
ghost use Rattle.image_partials.specs.Partials.{PartialJudged};

use crate::blocks::read_blocks;
use check_partials::state_ok;
use image_pass::Tally;
use image_records::read_partial;
use types::{u64_to_u16, usize_to_u64};

// The state of a piece fits its blocks.
fn state_fits(state: u64, priority: u64, t: Tally, many: u64, flags: u64) -> bool
    requires { (state ≤ 6) × (priority < 65536) × (many ≤ 256) × (t.free ≤ many) × (t.requested ≤ many) }
    ensures { result ≡ state_by state priority t.requested (many - t.free) many (leb 4 flags) }
{
    state_ok(
        u64_to_u16(state),
        u64_to_u16(priority),
        u64_to_u16(t.requested),
        u64_to_u16(many - t.free),
        u64_to_u16(many),
        4 <= flags,
    )
}

// The partial of piece i, of `many` blocks, where n partials stand before it. Answers the place behind its blocks, or as the error that of
// the record at fault.
pub fn read_whole(
    bytes: &[u8],
    at: usize,
    i: u64,
    n: u64,
    many: usize,
    state: u64,
    priority: u64,
) -> Result<usize, usize>
    requires le_many { (1 ≤ many) × (many ≤ 256) × (state ≤ 6) × (priority < 65536) }
    requires at_in_bounds { at ≤ length bytes.now }
    ensures { PartialJudged at i n many state priority bytes.now result }
{
    let Some(flags) = read_partial(bytes, at, i, n) else {
        return Err(at);
    };
    let start = at + 6;
    let t = read_blocks(bytes, start, many)?;
    let end = start + 13 * many;
    if !state_fits(state, priority, t, usize_to_u64(many), flags) {
        return Err(end - 13);
    }
    Ok(end)
}
