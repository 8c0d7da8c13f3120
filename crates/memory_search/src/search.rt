// The place of a piece's record among the first n, and the place where a record of a piece belongs.
ghost use Rattle.std.specs.Prelude.{◌≡◌};
ghost use Rattle.memory_records.specs.Records.{Rising, answer_of, seek_from, above_from};
ghost use Rattle.memory_search.specs.Skips.{Skipped};

use memory_records::{DownloadingPiece, get};

// What a search answers that stopped at place k of n.
fn answer(k: usize, n: usize) -> Option<usize>
    ensures { result ≡ answer_of k n }
{
    if k < n { Some(k) } else { None }
}

// A place among the first n before which all records are of lower pieces: a search for the piece may start there. They rise, so that one
// record tells of sixteen.
fn skip_lower(partials: &[DownloadingPiece], n: usize, piece: u32) -> usize
    requires { Rising n partials.now }
    ensures { Skipped n piece partials.now result }
{
    let mut k = 0;
    // A `while`, since the place where it stops is the answer: by chunks of sixteen it would be counted again from their number.
    while k + 16 <= n {
        let d = get(partials, k + 15);
        if piece <= d.index {
            break;
        }
        k += 16;
    }
    k
}

// The place of the piece's record among the first n, or n.
pub fn seek(partials: &[DownloadingPiece], n: usize, piece: u32) -> usize
    requires { Rising n partials.now }
    ensures { result ≡ seek_from n 0 partials.now piece }
{
    for k in skip_lower(partials, n, piece)..n {
        let d = get(partials, k);
        if d.index == piece {
            return k;
        }
    }
    n
}

// The place of the first of n records that is of a higher piece, or n.
pub fn position(partials: &[DownloadingPiece], n: usize, piece: u32) -> usize
    requires { Rising n partials.now }
    ensures { result ≡ above_from n 0 partials.now piece }
{
    for k in skip_lower(partials, n, piece)..n {
        let d = get(partials, k);
        if piece < d.index {
            return k;
        }
    }
    n
}

// The place of the piece's record among the first n.
pub fn find(partials: &[DownloadingPiece], n: usize, piece: u32) -> Option<usize>
    requires { Rising n partials.now }
    ensures { result ≡ answer_of (seek_from n 0 partials.now piece) n }
{
    let k = seek(partials, n, piece);
    answer(k, n)
}
