// The extents: at most five, each in range, and none twice.
ghost use Rattle.std.specs.Prelude.{◌≡◌, ◌+◌, ◌*◌, ◌≤◌, length};
ghost use Rattle.model.specs.Lists.{member};
ghost use Rattle.image_tail.specs.Extents.{extents_before, ExtentsJudged};

use image_bytes::read4;
use image_records::{comes, read_number};

// Whether one of the first k extents, which stand from `start` on, is e.
fn among(bytes: &[u8], start: usize, k: usize, e: u64) -> bool
    requires { (k ≤ 5) × (start + 5 * k ≤ length bytes.now) }
    ensures { result ≡ member e (extents_before start k bytes.now) }
{
    for j in 0..k {
        if e == read4(bytes, start + 5 * j + 1) {
            return true;
        }
    }
    false
}

// Extents from `start` on, as long as records of that kind come, where there are `limit` of them in the torrent. Answers the place behind
// them, or as the error that of the record at fault.
pub fn read_extents(bytes: &[u8], start: usize, limit: u64) -> Result<usize, usize>
    requires { start ≤ length bytes.now }
    ensures { ExtentsJudged start limit bytes.now result }
{
    let mut at = start;
    for k in 0..5 {
        if !comes(bytes, at, 5) {
            return Ok(at);
        }
        let Some(e) = read_number(bytes, at, 5) else {
            return Err(at);
        };
        if (limit <= e) | among(bytes, start, k, e) {
            return Err(at);
        }
        at += 5;
    }
    if comes(bytes, at, 5) {
        return Err(at);
    }
    Ok(at)
}
