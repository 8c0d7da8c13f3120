// The quick pass over the pieces of an image, 128 at a time: their numbers are first put into columns, of which the compiler then tests
// many rows at once. It tells how many pieces from the front are well, but not which one is not.
ghost use Rattle.std.specs.Prelude.{◌≡◌, ◌+◌, ◌*◌, ◌≤◌, length};
ghost use Rattle.model.specs.Bep3.{num_pieces};
ghost use Rattle.image_pieces.specs.Heads.{Headed};
ghost use Rattle.image_pieces.specs.Pieces.{Reading};
ghost use Rattle.image_pieces.specs.Stretches.{Columns, Gathered, StretchPassed};

use crate::head::Head;
use check_pieces::rows_pass;
use image_bytes::{read1, read2, read4};
use types::u64_to_u16;

// The numbers of the 128 records from `start` on, put into columns. False where one is no piece, or has pad bytes above `size`.
fn gather(
    bytes: &[u8],
    start: usize,
    size: u64,
    counts: &mut [u16],
    states: &mut [u16],
    priorities: &mut [u16],
    flushed: &mut [u16],
) -> bool
    requires start_in_bounds { start + 1280 ≤ length bytes.now }
    requires columns { Columns counts.old states.old priorities.old flushed.old }
    ensures { Gathered start 128 size bytes.now counts.new states.new priorities.new
        flushed.new result }
{
    for j in 0..128 {
        let at = start + 10 * j;
        let kind = read1(bytes, at);
        let pad = read4(bytes, at + 6);
        if (kind != 2) | (size < pad) {
            return false;
        }
        counts[j] = u64_to_u16(read2(bytes, at + 1));
        states[j] = u64_to_u16(read1(bytes, at + 3));
        priorities[j] = u64_to_u16(read1(bytes, at + 4));
        flushed[j] = u64_to_u16(read1(bytes, at + 5));
    }
    true
}

// Whether 128 pieces of `size` bytes from `start` on are well; where they are, the ranks are theirs.
fn pass_stretch(bytes: &[u8], start: usize, seeds: u64, size: u64, ranks: &mut [u16]) -> bool
    requires { (start + 1280 ≤ length bytes.now) × (seeds ≤ 1000) × (length ranks.old ≡ 128) }
    ensures { StretchPassed start seeds size bytes.now ranks.new result }
{
    let mut counts = [0u16; 128];
    let mut states = [0u16; 128];
    let mut priorities = [0u16; 128];
    let mut flushed = [0u16; 128];
    if !gather(
        bytes,
        start,
        size,
        &mut counts,
        &mut states,
        &mut priorities,
        &mut flushed,
    ) {
        return false;
    }
    rows_pass(
        &counts,
        &states,
        &priorities,
        &flushed,
        u64_to_u16(seeds),
        ranks,
    )
}

// How many pieces from the front are known to be well, with their ranks. The last piece, which may be shorter than the piece size, is in
// no stretch.
pub fn pass_pieces(bytes: &[u8], head: Head, n: usize, ranks: &mut [u16]) -> usize
    requires headed { Headed head bytes.now }
    requires n_value { (n ≡ num_pieces head.total head.size) × (n ≤ length ranks.old) }
    ensures { Reading head n (length ranks.old) bytes.now ranks.new result }
{
    if bytes.len() - 24 < 10 * n {
        return 0;
    }
    let stretches = (n - 1) / 128;
    for k in 0..stretches {
        let i = 128 * k;
        if !pass_stretch(
            bytes,
            24 + 10 * i,
            head.seeds,
            head.size,
            &mut ranks[i..i + 128],
        ) {
            return i;
        }
    }
    128 * stretches
}
