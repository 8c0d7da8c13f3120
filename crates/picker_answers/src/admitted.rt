// The refusals of a question, in the table's order, by what its arguments are.
ghost use Rattle.std.specs.Prelude.{◌≡◌, ◌<◌, length};
ghost use Rattle.std.proofs.Math.Option.{none};
ghost use Rattle.types.specs.declared.refusal.Refusal.TheVariants.{OutOfRange};
ghost use Rattle.model.specs.Calls.{check, refuse_bad_piece, refuse_bad_block, no_place};
ghost use Rattle.memory_layout.specs.Decode.{blocks_of};
ghost use Rattle.memory_layout.specs.Bounds.{WordsSpan};
ghost use Rattle.memory_fields.specs.Reading.{WordsSay};
ghost use Rattle.picker_answers.specs.Admitting.{AdmittedBy};

use ask_piece::blocks_in_piece;
use memory_fields::{is_dirty, list_length};
use memory_layout::Shape;
use memory_records::live_records;
use picker_calls::admit;
use types::{Refusal, u64_to_usize};

// A picker of this shape, with so many partials.
#[derive(Drop)]
pub struct Admitted {
    pub shape: Shape,
    pub live: usize,
}

// 2 and 3: of the picker, and at a place that may be any.
pub fn admit_picker(
    words: &[u64],
    cells: &[u16],
    rows: &[u32],
    lent: usize,
    counts: &mut [u16],
) -> Result<Admitted, Refusal>
    requires { (length rows.now ≡ 1536) × (length counts.old ≡ 1536) }
    ensures { AdmittedBy (λ d. none) (λ s. Unit {0}) words.now cells.now rows.now
        counts.new lent result }
{
    let shape = admit(words, cells, rows, lent, counts)?;
    Ok(Admitted {
        shape,
        live: live_records(words),
    })
}

// 2, 3 and 5: of piece i.
pub fn admit_piece(
    words: &[u64],
    cells: &[u16],
    rows: &[u32],
    lent: usize,
    counts: &mut [u16],
    i: usize,
) -> Result<Admitted, Refusal>
    requires { (length rows.now ≡ 1536) × (length counts.old ≡ 1536) }
    ensures { AdmittedBy (λ d. refuse_bad_piece d i none) (λ s. i < s.pieces) words.now cells.now
        rows.now counts.new lent result }
{
    let shape = admit(words, cells, rows, lent, counts)?;
    if shape.pieces <= i {
        return Err(Refusal::OutOfRange);
    }
    Ok(Admitted {
        shape,
        live: live_records(words),
    })
}

// 2, 3 and 5: of block j of piece i.
pub fn admit_block(
    words: &[u64],
    cells: &[u16],
    rows: &[u32],
    lent: usize,
    counts: &mut [u16],
    i: usize,
    j: usize,
) -> Result<Admitted, Refusal>
    requires { (length rows.now ≡ 1536) × (length counts.old ≡ 1536) }
    ensures { AdmittedBy (λ d. refuse_bad_block d i j none) (λ s. (i < s.pieces) × (j < blocks_of words.now i))
        words.now cells.now rows.now counts.new lent result }
{
    let shape = admit(words, cells, rows, lent, counts)?;
    if shape.pieces <= i {
        return Err(Refusal::OutOfRange);
    }
    if u64_to_usize(blocks_in_piece(words, shape, i)) <= j {
        return Err(Refusal::OutOfRange);
    }
    Ok(Admitted {
        shape,
        live: live_records(words),
    })
}

// Past the end of a list that is not dirty.
fn past_list(words: &[u64], s: Shape, k: usize) -> bool
    requires { WordsSpan s words.now }
    ensures { WordsSay s words.now (λ d. no_place d.listing k) result }
{
    if is_dirty(words, s) {
        return false;
    }
    list_length(words, s) <= k
}

// 2, 3 and 5: of place k of the list.
pub fn admit_place(
    words: &[u64],
    cells: &[u16],
    rows: &[u32],
    lent: usize,
    counts: &mut [u16],
    k: usize,
) -> Result<Admitted, Refusal>
    requires { (length rows.now ≡ 1536) × (length counts.old ≡ 1536) }
    ensures { AdmittedBy (λ d. check (no_place d.listing k) OutOfRange none) (λ s. Unit {0}) words.now
        cells.now rows.now counts.new lent result }
{
    let shape = admit(words, cells, rows, lent, counts)?;
    if past_list(words, shape, k) {
        return Err(Refusal::OutOfRange);
    }
    Ok(Admitted {
        shape,
        live: live_records(words),
    })
}
