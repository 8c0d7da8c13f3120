// The state of a block.
ghost use Rattle.std.specs.Prelude.{◌≡◌, ok_or};
ghost use Rattle.types.specs.Block.{block_state_number, block_state_with_number};

use crate::unknown::UnknownNumber;

#[derive(Clone, Copy, PartialEq, Eq)]
pub enum BlockState {
    // Free to request.
    None = 0,
    // Requested from at least one peer.
    Requested = 1,
    // Received, being written.
    Writing = 2,
    // Written.
    Finished = 3,
}

impl BlockState {
    pub fn number(self) -> u8
        ensures { result ≡ block_state_number self }
    {
        self as u8
    }
}

impl TryFrom<u8> for BlockState {
    type Error = UnknownNumber;

    ghost try_from_gives = { λ n found. found ≡ ok_or (block_state_with_number n) (record { number = n }) };

    #[tactic(auto, unfolding(crate::specs::Block::block_state_with_number, crate::specs::Numbers::case_with))]
    fn try_from(n: u8) -> Result<BlockState, UnknownNumber> {
        match n {
            0 => Ok(BlockState::None),
            1 => Ok(BlockState::Requested),
            2 => Ok(BlockState::Writing),
            3 => Ok(BlockState::Finished),
            _ => Err(UnknownNumber { number: n }),
        }
    }
}
