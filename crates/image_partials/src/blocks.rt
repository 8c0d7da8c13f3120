// The blocks of a partial: each by its own rule, and how many are free and requested.
ghost use Rattle.std.specs.Prelude.{◌≡◌, ◌+◌, ◌≤◌, ◌<◌, length, eqb};
ghost use Rattle.model.specs.Lists.{bit};
ghost use Rattle.image_partials.specs.Blocks.{BlocksJudged};

use image_pass::{Tally, pass_blocks};
use image_records::{Block, read_block};

fn one_if(t: bool) -> u64
    ensures is { result ≡ bit t }
    ensures most { result ≤ 1 }
{
    u64::from(t)
}

// One block more.
fn count_block(t: Tally, state: u64) -> Tally
    requires { (t.free < 65536) × (t.requested < 65536) }
    ensures { (result.free ≡ t.free + bit (eqb state 0)) × (result.requested ≡ t.requested + bit (eqb state 1)) }
{
    Tally {
        free: t.free + one_if(state == 0),
        requested: t.requested + one_if(state == 1),
    }
}

// Block by block, up to the first fault.
fn read_each(bytes: &[u8], start: usize, many: usize) -> Result<Tally, usize>
    requires { (start ≤ length bytes.now) × (1 ≤ many) × (many ≤ 256) }
    ensures { BlocksJudged start many bytes.now result }
{
    let mut t = Tally {
        free: 0,
        requested: 0,
    };
    let mut at = start;
    for j in 0..many {
        let Some(b) = read_block(bytes, at) else {
            return Err(at);
        };
        t = count_block(t, b.state);
        at += 13;
    }
    Ok(t)
}

// `many` blocks from `start` on. What they give together is judged behind the last one. A pass that only tells whether all are well goes
// first, since that is what an image mostly has. The error is the place of the record at fault.
pub fn read_blocks(bytes: &[u8], start: usize, many: usize) -> Result<Tally, usize>
    requires { (start ≤ length bytes.now) × (1 ≤ many) × (many ≤ 256) }
    ensures { BlocksJudged start many bytes.now result }
{
    match pass_blocks(bytes, start, many) {
        Some(t) => Ok(t),
        None => read_each(bytes, start, many),
    }
}
