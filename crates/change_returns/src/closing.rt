// A partial closed by the last of its blocks that is at work.
ghost use Rattle.std.specs.Prelude.{◌≡◌, not, ◌&&◌, ◌<◌, eqb};
ghost use Rattle.memory_records.specs.declared.edits.Edit.TheVariants.{Remove};
ghost use Rattle.change_closing.specs.Closing.{PartialBeside, ErasedAndUpdated};

use change_closing::erase_and_update;
use change_state::Tally;
use memory_layout::Shape;
use memory_records::Edit;
use types::usize_to_u32;

// What becomes of the records, and the number of the next draw.
#[derive(Drop)]
pub struct Given {
    pub edit: Edit,
    pub used: usize,
}

// One block is at work, and nothing is being hashed: without that block the partial is closed.
pub fn is_last(t: Tally) -> bool
    ensures { result ≡ (eqb t.busy 1 && not t.hashing) }
{
    (t.busy == 1) & !t.hashing
}

// The partial of piece i gone, from the first draw on, and the edit that takes its record out.
pub fn close_partial(
    words: &mut [u64],
    cells: &mut [u16],
    s: Shape,
    i: usize,
    draws: &[u32],
) -> Given
    requires partial_beside { PartialBeside s i words.old cells.old }
    requires i_lt_pieces { i < s.pieces }
    ensures edit { result.edit ≡ Remove i }
    ensures change { ErasedAndUpdated s draws.now i words.old cells.old 0
        words.new cells.new result.used }
{
    let next = erase_and_update(words, cells, s, i, draws, 0);
    Given {
        edit: Edit::Remove(usize_to_u32(i)),
        used: next,
    }
}
