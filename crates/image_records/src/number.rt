// A record of one number: an extent or a list place, whose rule depends on what was read before and is its caller's.
ghost use Rattle.std.specs.Prelude.{◌≡◌, ◌≤◌, drop};
ghost use Rattle.model.specs.image.Image.{judged};
ghost use Rattle.image_records.specs.Records.{number_in, number_step};

use crate::front::{body_of, stands};
use image_bytes::read4;

pub fn read_number(bytes: &[u8], at: usize, kind: usize) -> Option<u64>
    requires { (5 ≤ kind) × (kind ≤ 6) }
    ensures { result ≡ number_step (judged kind number_in (drop at bytes.now)) }
{
    if !stands(bytes, at, kind) {
        return None;
    }
    let body = body_of(bytes, at, kind);
    Some(read4(body, 0))
}
