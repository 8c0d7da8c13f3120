// 2 and 3 of a question that fills a lent list.
ghost use Rattle.std.specs.Prelude.{◌≡◌, length};
ghost use Rattle.picker_lists.specs.Rooms.{need_of, short_on, RoomAdmitted};

use check_memory::check_memory;
use geometry::valid_geometry;
use memory_layout::{Shape, head_word, shape_of};
use types::Refusal;

// A place for each piece, for each partial that there can be, or for each block of a whole piece.
#[derive(Drop)]
pub enum Need {
    Pieces,
    Partials,
    Blocks,
}

fn needed(s: Shape, need: Need) -> usize
    ensures { result ≡ need_of need s }
{
    match need {
        Need::Pieces => s.pieces,
        Need::Partials => s.places,
        Need::Blocks => s.blocks,
    }
}

// The head gives a geometry, and that needs more places.
fn short_room(words: &[u64], need: Need, room: usize) -> bool
    ensures { result ≡ short_on need room words.now }
{
    if words.len() < 16 {
        return false;
    }
    if !valid_geometry(head_word(words, 0), head_word(words, 1)) {
        return false;
    }
    room < needed(shape_of(words), need)
}

// Places that are too few come before memory that holds no picker.
pub fn admit_room(
    words: &[u64],
    cells: &[u16],
    rows: &[u32],
    lent: usize,
    counts: &mut [u16],
    need: Need,
    room: usize,
) -> Result<Shape, Refusal>
    requires { (length rows.now ≡ 1536) × (length counts.old ≡ 1536) }
    ensures { RoomAdmitted need room words.now cells.now rows.now counts.new lent result }
{
    let checked = check_memory(words, cells, rows, lent, counts);
    if short_room(words, need, room) {
        return Err(Refusal::ShortMemory);
    }
    checked?;
    Ok(shape_of(words))
}
