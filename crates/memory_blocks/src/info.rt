// The numbers of a block, by value.
ghost use Rattle.std.specs.Prelude.{◌≡◌};
ghost use Rattle.types.specs.Block.{block_state_number};
ghost use Rattle.memory_layout.specs.Decode.{state_from};

// A block's state by its number, how many peers asked for it, and the peer that asked last, where there is one.
#[derive(Clone, Copy)]
pub struct BlockInfo {
    pub state: u16,
    pub num_peers: u16,
    pub has_peer: bool,
    pub peer: u64,
}

// The number of the state that a cell means: a number that no state has is read as None.
pub fn state_number(v: u16) -> u16
    ensures { result ≡ block_state_number (state_from v) }
{
    if v < 4 { v } else { 0 }
}
