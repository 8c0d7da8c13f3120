// The test of the pad bytes: none above the piece size, and the last piece's none above its own length.
ghost use Rattle.std.specs.Prelude.{◌≡◌, ◌≤◌, length};
ghost use Rattle.check_pieces.specs.Rows.{NoneAbove, pads_below, pads_ok};

// Each one by itself.
fn pads_one_by_one(pads: &[u64], size: u64) -> bool
    requires { length pads.now ≤ 4096 }
    ensures { result ≡ pads_below size pads.now }
{
    for pad in pads {
        if size < *pad {
            return false;
        }
    }
    true
}

// All of them joined: none is above that.
fn joined(pads: &[u64]) -> u64
    requires { length pads.now ≤ 4096 }
    ensures { NoneAbove result pads.now }
{
    let mut all: u64 = 0;
    for pad in pads {
        all |= *pad;
    }
    all
}

// Most pads are 0 or small, so one look at the joined word does for them.
pub fn pads_ok(pads: &[u64], size: u64, last: u64) -> bool
    requires in_bounds { (1 ≤ length pads.now) × (length pads.now ≤ 4096) }
    requires last_le_size { last ≤ size }
    ensures { result ≡ pads_ok size last pads.now }
{
    if joined(pads) <= last {
        return true;
    }
    if !pads_one_by_one(pads, size) {
        return false;
    }
    pads[pads.len() - 1] <= last
}
