// The live records as rows of numbers: three columns of 512, the piece, the place of its blocks, the flags.
ghost use Rattle.std.specs.Prelude.{◌≡◌, ◌≤◌, ◌<◌, length};
ghost use Rattle.memory_records.specs.Rows.{live_records, row_put, row_at, unpacked, packed};

use crate::record::{DownloadingPiece, get, put};

// How many records are live by word 7 of the head, at most 512; none where the words hold no head.
pub fn live_records(words: &[u64]) -> usize
    ensures { result ≡ live_records words.now }
{
    if words.len() < 16 {
        return 0;
    }
    words[7].min(512) as usize
}

// Row k holds d.
#[tactic(auto, unfolding(crate::specs::Rows::row_put))]
pub fn set_row(rows: &mut [u32], k: usize, d: DownloadingPiece)
    requires { (k < 512) × (length rows.old ≡ 1536) }
    ensures { rows.new ≡ row_put rows.old k d }
{
    rows[k] = d.index;
    rows[512 + k] = d.info_idx;
    rows[1024 + k] = d.flags;
}

// The record in row k.
#[tactic(auto, unfolding(crate::specs::Rows::row_at))]
pub fn row(rows: &[u32], k: usize) -> DownloadingPiece
    requires { (k < 512) × (length rows.now ≡ 1536) }
    ensures { result ≡ row_at rows.now k }
{
    DownloadingPiece {
        index: rows[k],
        info_idx: rows[512 + k],
        flags: rows[1024 + k],
    }
}

// The live records in rows. The answer is how many records were lent.
pub fn unpack(partials: &[DownloadingPiece], live: usize, rows: &mut [u32]) -> usize
    requires { (live ≤ 512) × (length rows.old ≡ 1536) }
    ensures { (result ≡ length partials.now)
        × (rows.new ≡ unpacked live partials.now rows.old) }
{
    let n = live.min(partials.len());
    for k in 0..n {
        let d = get(partials, k);
        set_row(rows, k, d);
    }
    partials.len()
}

// The first n rows as records.
pub fn pack(partials: &mut [DownloadingPiece], rows: &[u32], n: usize)
    requires { (n ≤ 512) × (n ≤ length partials.old) × (length rows.now ≡ 1536) }
    ensures { partials.new ≡ packed n rows.now partials.old }
{
    for k in 0..n {
        let d = row(rows, k);
        put(partials, k, d);
    }
}
