// 2 and 3 of the table: whether a call is refused for its memory.
ghost use Rattle.std.specs.Prelude.{◌≡◌, length};
ghost use Rattle.picker_calls.specs.Cores.{Admitted};

use check_memory::check_memory;
use memory_layout::{Shape, shape_of};
use types::Refusal;

// A call that is lent no places for records.
pub fn admit(
    words: &[u64],
    cells: &[u16],
    rows: &[u32],
    lent: usize,
    counts: &mut [u16],
) -> Result<Shape, Refusal>
    requires { (length rows.now ≡ 1536) × (length counts.old ≡ 1536) }
    ensures { Admitted words.now cells.now rows.now counts.new lent result }
{
    check_memory(words, cells, rows, lent, counts)?;
    Ok(shape_of(words))
}
