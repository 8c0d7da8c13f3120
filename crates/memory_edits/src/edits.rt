// Edits of the first n records by piece. Each keeps the order; what stands behind the last live record means nothing.
ghost use Rattle.std.specs.Prelude.{◌≡◌, ◌-◌, ◌<◌, ◌≤◌, length};
ghost use Rattle.memory_records.specs.Records.{Rising, open_gap, close_gap, inserted, removed, replaced, EditFits, edited};

use memory_records::{DownloadingPiece, Edit, put};
use memory_search::{position, seek};

// The records from i to n - 1 go up by one place.
#[tactic(auto, using(crate::proofs::laws::GapLaws::opened_at))]
pub fn open_gap(partials: &mut [DownloadingPiece], i: usize, n: usize)
    requires { (i ≤ n) × (n < length partials.old) }
    ensures { partials.new ≡ open_gap (n - i) i partials.old }
{
    partials.copy_within(i..n, i + 1);
}

// The records after i, up to last, go down by one place.
#[tactic(auto, using(crate::proofs::laws::GapLaws::closed_at))]
pub fn close_gap(partials: &mut [DownloadingPiece], i: usize, last: usize)
    requires { (i ≤ last) × (last < length partials.old) }
    ensures { partials.new ≡ close_gap (last - i) i partials.old }
{
    partials.copy_within(i + 1..last + 1, i);
}

// d among the first n, before those of higher pieces.
pub fn insert(partials: &mut [DownloadingPiece], n: usize, d: DownloadingPiece)
    requires { (n < length partials.old) × Rising n partials.old }
    ensures { partials.new ≡ inserted n d partials.old }
{
    let q = position(partials, n, d.index);
    open_gap(partials, q, n);
    put(partials, q, d);
}

// The piece's record out of the first n: those after it go down by one place.
pub fn remove(partials: &mut [DownloadingPiece], n: usize, piece: u32)
    requires { Rising n partials.old }
    ensures { partials.new ≡ removed n piece partials.old }
{
    let q = seek(partials, n, piece);
    if n <= q {
        return;
    }
    let last = n - 1;
    close_gap(partials, q, last);
}

// d in the place of its piece's record among the first n.
pub fn replace(partials: &mut [DownloadingPiece], n: usize, d: DownloadingPiece)
    requires { Rising n partials.old }
    ensures { partials.new ≡ replaced n d partials.old }
{
    let q = seek(partials, n, d.index);
    if n <= q {
        return;
    }
    put(partials, q, d);
}

// One edit of the first n.
pub fn apply(partials: &mut [DownloadingPiece], n: usize, edit: Edit)
    requires { EditFits n edit partials.old }
    ensures { partials.new ≡ edited n edit partials.old }
{
    match edit {
        Edit::Keep => {}
        Edit::Replace(d) => replace(partials, n, d),
        Edit::Insert(d) => insert(partials, n, d),
        Edit::Remove(piece) => remove(partials, n, piece),
    }
}
