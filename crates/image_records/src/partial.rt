// The record of a partial: its piece and its flags.
ghost use Rattle.std.specs.Prelude.{◌≡◌, drop};
ghost use Rattle.model.specs.image.Image.{partial_kind, judged, read_partial};
ghost use Rattle.image_records.specs.Records.{number_step};

use crate::front::{body_of, stands};
use image_bytes::{read1, read4};

// The flags of the partial of piece i, where n partials stand before it.
pub fn read_partial(bytes: &[u8], at: usize, i: u64, n: u64) -> Option<u64>
    ensures { result ≡ number_step (judged partial_kind (read_partial i n) (drop at bytes.now)) }
{
    if !stands(bytes, at, 3) {
        return None;
    }
    let body = body_of(bytes, at, 3);
    let flags = read1(body, 4);
    if (read4(body, 0) == i) & (flags <= 7) & (n < 512) {
        return Some(flags);
    }
    None
}
