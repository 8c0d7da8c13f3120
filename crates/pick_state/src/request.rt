// What a pick is asked, in numbers: the arguments of `pick_pieces` but for the lent slices.
use types::PickerOptions;

#[derive(Clone, Copy)]
pub struct PickRequest {
    pub options: PickerOptions,
    pub wanted: usize,
    pub contiguous: usize,
    pub peers: usize,
    pub has_peer: bool,
    pub peer: u64,
    pub bits: usize,
}
