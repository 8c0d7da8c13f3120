// A partial record as it is lent, and the record at a place. Numbers only, so that any content can be judged.
ghost use Rattle.std.specs.Prelude.{◌≡◌, ◌<◌, length, get_or, set};
ghost use Rattle.memory_records.specs.Records.{no_record};

// The Rust's `DownloadingPiece`: the piece, the place of its blocks, and flags: bit 1 passed_hash_check, 2 locked, 4 hashing.
#[repr(C)]
#[derive(Clone, Copy, PartialEq, Eq)]
pub struct DownloadingPiece {
    pub index: u32,
    pub info_idx: u32,
    pub flags: u32,
}

// The record at place i, field by field, so that what reads several before it writes has them in registers.
pub fn get(partials: &[DownloadingPiece], i: usize) -> DownloadingPiece
    requires { i < length partials.now }
    ensures { result ≡ get_or partials.now i no_record }
{
    let d = partials[i];
    DownloadingPiece {
        index: d.index,
        info_idx: d.info_idx,
        flags: d.flags,
    }
}

// Place i holds d.
pub fn put(partials: &mut [DownloadingPiece], i: usize, d: DownloadingPiece)
    requires { i < length partials.old }
    ensures { partials.new ≡ set partials.old i d }
{
    partials[i] = d;
}
