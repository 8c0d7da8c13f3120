// What stands at a place of the bytes: the kind that comes, a whole record, and its body.
ghost use Rattle.std.specs.Prelude.{◌≡◌, true, ◌≤◌, drop};
ghost use Rattle.model.specs.image.Image.{starts_with, comes as comesIn};
ghost use Rattle.image_records.specs.Records.{Body};

use image_bytes::body_length;

// A record of this kind would be next.
pub fn comes(bytes: &[u8], at: usize, kind: usize) -> bool
    ensures { result ≡ comesIn kind (drop at bytes.now) }
{
    if bytes.len() <= at {
        return false;
    }
    usize::from(bytes[at]) == kind
}

// A record of this kind stands there, whole.
pub fn stands(bytes: &[u8], at: usize, kind: usize) -> bool
    requires { (1 ≤ kind) × (kind ≤ 7) }
    ensures { result ≡ starts_with kind (drop at bytes.now) }
{
    let n = bytes.len();
    if n <= at {
        return false;
    }
    if usize::from(bytes[at]) != kind {
        return false;
    }
    body_length(kind) < n - at
}

// The body of a record that stands there.
pub fn body_of(bytes: &[u8], at: usize, kind: usize) -> &[u8]
    requires le_kind { (1 ≤ kind) × (kind ≤ 7) }
    requires bytes_value { starts_with kind (drop at bytes.now) ≡ true }
    ensures { Body kind at bytes.now result.now }
{
    let start = at + 1;
    let end = start + body_length(kind);
    &bytes[start..end]
}
