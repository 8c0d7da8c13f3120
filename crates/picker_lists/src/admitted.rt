// The refusals of a question that fills a lent list, in the table's order.
ghost use Rattle.std.specs.Prelude.{◌≡◌, ◌≤◌, ◌<◌, length};
ghost use Rattle.std.proofs.Math.Option.{none};
ghost use Rattle.model.specs.Calls.{refuse_bad_piece};
ghost use Rattle.picker_answers.specs.Admitting.{AdmittedBy};
ghost use Rattle.picker_lists.specs.declared.rooms.Need.TheVariants.{Blocks};
ghost use Rattle.picker_lists.specs.Rooms.{need_of, room_rule};

use crate::rooms::{Need, admit_room};
use memory_records::live_records;
use picker_answers::Admitted;
use types::Refusal;

// 2 and 3: a list of the picker.
pub fn admit_list(
    words: &[u64],
    cells: &[u16],
    rows: &[u32],
    lent: usize,
    counts: &mut [u16],
    need: Need,
    room: usize,
) -> Result<Admitted, Refusal>
    requires { (length rows.now ≡ 1536) × (length counts.old ≡ 1536) }
    ensures { AdmittedBy (room_rule need room (λ d. none)) (λ s. need_of need s ≤ room) words.now cells.now
        rows.now counts.new lent result }
{
    let shape = admit_room(words, cells, rows, lent, counts, need, room)?;
    Ok(Admitted {
        shape,
        live: live_records(words),
    })
}

// 2, 3 and 5: a list of piece i.
pub fn admit_piece_list(
    words: &[u64],
    cells: &[u16],
    rows: &[u32],
    lent: usize,
    counts: &mut [u16],
    room: usize,
    i: usize,
) -> Result<Admitted, Refusal>
    requires { (length rows.now ≡ 1536) × (length counts.old ≡ 1536) }
    ensures { AdmittedBy (room_rule Blocks room (λ d. refuse_bad_piece d i none)) (λ s. (i < s.pieces) × (s.blocks ≤ room))
        words.now cells.now rows.now counts.new lent result }
{
    let shape = admit_room(words, cells, rows, lent, counts, Need::Blocks, room)?;
    if shape.pieces <= i {
        return Err(Refusal::OutOfRange);
    }
    Ok(Admitted {
        shape,
        live: live_records(words),
    })
}
