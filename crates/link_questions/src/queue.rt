// Questions of `ask_queue` for callers in C and Rust, each with what it asks and answers.
// Written by tools/asks.py, and not by hand.
ghost use Rattle.std.specs.Prelude.{◌≡◌, ◌*◌, ◌≤◌, length};
ghost use Rattle.model.specs.ask.Questions.{list_picker, plain, get_download_queue};
ghost use Rattle.memory_rows.specs.Lookup.{picker_in};
ghost use Rattle.ask_partial.specs.Info.{AskedCounts};
ghost use Rattle.ask_records.specs.Records.{Written};
ghost use Rattle.ask_queue.specs.Infos.{infos_told};
ghost use Rattle.link_questions.specs.Lending.{shaped};

use link_lists::Geometry;
use memory_layout::Shape;

#[unsafe(no_mangle)]
pub extern "C" fn aq_get_download_queue(
    words: &[u64],
    cells: &[u16],
    rows: &[u32],
    live: usize,
    counts: &[u16],
    g: Geometry,
    out: &mut [u64],
) -> usize
    requires asked_counts { AskedCounts (shaped g) live rows.now counts.now words.now cells.now }
    requires places_in_bounds { 7 * g.places ≤ length out.old }
    ensures out_after { plain (infos_told result out.new)
        ≡ list_picker (picker_in live rows.now words.now cells.now) get_download_queue }
    ensures written { Written 7 result out.old out.new }
{
    let s = Shape::from(g);
    ask_queue::get_download_queue(words, cells, rows, live, counts, s, out)
}
