// What a pick is asked.
ghost use Rattle.std.specs.Prelude.{◌≡◌};
ghost use Rattle.export_arguments.specs.Arguments.{pick_asked};

use pick_judge::PickInput;
use types::PickerOptions;

// There is no peer where `has_peer` is 0; `bits` is the number of bits of the bitfield, `end` the place where the output so far ends.
#[repr(C)]
#[derive(Drop)]
pub struct PickAsked {
    pub num_blocks: i32,
    pub prefer_contiguous_blocks: i32,
    pub num_peers: i32,
    pub options: u16,
    pub peer: u64,
    pub has_peer: u32,
    pub bits: usize,
    pub end: usize,
}

pub fn asked(x: PickAsked) -> PickInput
    ensures { result ≡ pick_asked x }
{
    PickInput {
        options: PickerOptions(x.options),
        num_blocks: x.num_blocks,
        prefer_contiguous_blocks: x.prefer_contiguous_blocks,
        num_peers: x.num_peers,
        has_peer: 0 < x.has_peer,
        peer: x.peer,
        bits: x.bits,
        end: x.end,
    }
}
