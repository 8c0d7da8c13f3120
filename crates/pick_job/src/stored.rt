// The picker of an image, stored and asked.
ghost use Rattle.std.specs.Prelude.{◌≡◌, ◌<◌, length};
ghost use Rattle.memory_rows.specs.Lookup.{picker_in};
ghost use Rattle.image_store.specs.Given.{Image};
ghost use Rattle.pick_job.specs.Jobs.{answer_of, program_pick, Stored, ImageTold};

use crate::asking::within_limits;
use crate::picking::pick_program;
use check_memory::check_memory;
use image_pieces::read_head;
use image_records::Pick;
use image_store::store_image;
use memory_layout::shape_of;
use pick_pieces::Picked;
use types::Refusal;

// A picker that was just stored; the test of its memory counts the blocks of its partials.
fn pick_stored(
    words: &mut [u64],
    cells: &[u16],
    rows: &[u32],
    live: usize,
    p: Pick,
    out: &mut [u64],
) -> Result<Picked, Refusal>
    requires { (Stored live rows.now words.old cells.now) × (p.options < 65536) × (length out.old ≡ 4351) }
    ensures { answer_of out.new result
        ≡ program_pick (picker_in live rows.now words.old cells.now) p }
{
    let mut counts = [0; 1536];
    check_memory(words, cells, rows, 64, &mut counts)?;
    let s = shape_of(words);
    pick_program(words, cells, rows, live, &counts, s, p, out)
}

// An image and the numbers of a pick.
pub fn pick_image(image: &[u8], p: Pick, out: &mut [u64]) -> Result<Picked, Refusal>
    requires { (Image image.now) × (p.options < 65536) × (length out.old ≡ 4351) }
    ensures { ImageTold image.now p out.new result }
{
    let Some(head) = read_head(image) else {
        return Err(Refusal::ShortMemory);
    };
    if !within_limits(head.total, head.size) {
        return Err(Refusal::ShortMemory);
    }
    let mut words = [0; 1168];
    let mut cells = [0; 3328];
    let mut rows = [0; 1536];
    let live = store_image(image, &mut words, &mut cells, &mut rows);
    pick_stored(&mut words, &cells, &rows, live, p, out)
}
