// An edit of the records by piece, as a call answers it.
use crate::record::DownloadingPiece;

// What a call does to the records: one replaced, one put in, or that of a piece taken out.
#[derive(Clone, Copy, PartialEq, Eq)]
pub enum Edit {
    Keep,
    Replace(DownloadingPiece),
    Insert(DownloadingPiece),
    Remove(u32),
}
