// Many blocks: kind, state and num_peers of each are first put into one number, of which the compiler then takes many at once.
ghost use Rattle.std.specs.Prelude.{◌≡◌, ◌+◌, ◌*◌, ◌≤◌, length};
ghost use Rattle.model.specs.Lists.{bit};
ghost use Rattle.image_pass.specs.Blocks.{BlocksWell};
ghost use Rattle.image_pass.specs.Quads.{quad_ok, Gathered, QuadsTold};

use crate::pass::only_if;
use crate::tally::Tally;
use image_bytes::{read1, read2, read8};
use types::{u64_to_usize, usize_to_u32};

fn quad_ok(q: u32) -> bool
    ensures { result ≡ quad_ok q }
{
    (q / 262144 == 256) & (q % 65536 <= 1000)
}

fn one_if(t: bool) -> u32
    ensures is { result ≡ bit t }
    ensures most { result ≤ 1 }
{
    u32::from(t)
}

// The numbers of each block. The answer is 0 where every flag is one, and no peer stands without it.
fn gather(bytes: &[u8], start: usize, many: usize, quads: &mut [u32]) -> u64
    requires { (start + 13 * many ≤ length bytes.now) × (many ≤ length quads.old) }
    ensures { Gathered start many bytes.now quads.old quads.new result }
{
    let mut lone = 0;
    for j in 0..many {
        let at = start + 13 * j;
        let quad = read1(bytes, at) * 16777216
            + (read1(bytes, at + 1) * 65536 + read2(bytes, at + 2));
        quads[j] = usize_to_u32(u64_to_usize(quad));
        let has = read1(bytes, at + 4);
        let peer = read8(bytes, at + 5);
        if 1 < has {
            return 1;
        }
        lone = lone | only_if(has == 0, peer);
    }
    lone
}

// Whether they are as they may be, and how many are free and requested.
fn tell(quads: &[u32], many: usize) -> Option<Tally>
    requires { (many ≤ length quads.now) × (many ≤ 256) }
    ensures { QuadsTold many quads.now result }
{
    let mut wrong: u32 = 0;
    let mut free: u32 = 0;
    let mut requested: u32 = 0;
    for j in 0..many {
        let q = quads[j];
        wrong += one_if(!quad_ok(q));
        free += one_if(q / 65536 == 1024);
        requested += one_if(q / 65536 == 1025);
    }
    if wrong != 0 {
        return None;
    }
    Some(Tally {
        free: u64::from(free),
        requested: u64::from(requested),
    })
}

// Blocks that the bytes have.
pub fn pass_many(bytes: &[u8], start: usize, many: usize) -> Option<Tally>
    requires { (start + 13 * many ≤ length bytes.now) × (1 ≤ many) × (many ≤ 256) }
    ensures { BlocksWell start many bytes.now result }
{
    let mut quads = [0u32; 256];
    let lone = gather(bytes, start, many, &mut quads);
    if lone != 0 {
        return None;
    }
    tell(&quads, many)
}
