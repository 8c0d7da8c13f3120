// The partials of the four queues, a record for each, written once into a lent list. What lies behind stays as it was.
#![tactic(auto)]

ghost use Rattle.std.specs.Prelude.{◌≡◌, [], ◌+◌, ◌*◌, ◌≤◌, ◌<◌, length};
ghost use Rattle.model.specs.Lists.{nth};
ghost use Rattle.model.specs.ask.Questions.{list_picker, plain, get_download_queue};
ghost use Rattle.memory_rows.specs.Lookup.{picker_in};
ghost use Rattle.ask_partial.specs.Info.{info_numbers, AskedCounts};
ghost use Rattle.ask_records.specs.Records.{WordsPut, Written};
ghost use Rattle.ask_queue.specs.Infos.{infos_told, PlacesLow, InfosPut};

use ask_partial::{PieceInfo, info_at};
use ask_records::{bit_of, put_words};
use memory_layout::Shape;
use memory_queues::{download_queues, place_at};
use types::{u16_to_u64, usize_to_u64};

// Record n: index, finished, passed_hash_check, writing, locked, requested, hashing.
fn put_info(out: &mut [u64], n: usize, x: PieceInfo)
    requires { 7 * n + 7 ≤ length out.old }
    ensures { WordsPut (7 * n) 7 (info_numbers x) out.old out.new }
{
    let info = [
        usize_to_u64(x.index),
        u16_to_u64(x.finished),
        bit_of(x.passed_hash_check),
        u16_to_u64(x.writing),
        bit_of(x.locked),
        u16_to_u64(x.requested),
        bit_of(x.hashing),
    ];
    put_words(out, 7 * n, &info);
}

// Those of the first places of row q, from record n on.
fn put_queue(
    rows: &[u32],
    counts: &[u16],
    queues: &[[u16; 512]; 4],
    q: usize,
    size: usize,
    out: &mut [u64],
    n: usize,
)
    requires rows_len { (length rows.now ≡ 1536) × (length counts.now ≡ 1536) }
    requires q_bound { (q < 4) × (size ≤ 512) }
    requires places_low { PlacesLow (nth [] queues.now q) size }
    requires size_in_bounds { 7 * (n + size) ≤ length out.old }
    ensures { InfosPut rows.now counts.now (nth [] queues.now q) n size out.old
        out.new }
{
    for j in 0..size {
        let k = place_at(queues, q, j);
        put_info(out, n + j, info_at(rows, counts, k));
    }
}

// How many records were written.
pub fn get_download_queue(
    words: &[u64],
    cells: &[u16],
    rows: &[u32],
    live: usize,
    counts: &[u16],
    s: Shape,
    out: &mut [u64],
) -> usize
    requires asked_counts { AskedCounts s live rows.now counts.now words.now cells.now }
    requires places_in_bounds { 7 * s.places ≤ length out.old }
    ensures out_after { plain (infos_told result out.new)
        ≡ list_picker (picker_in live rows.now words.now cells.now) get_download_queue }
    ensures written { Written 7 result out.old out.new }
{
    let mut queues = [[0; 512]; 4];
    let mut sizes = [0; 4];
    download_queues(cells, rows, live, s, &mut queues, &mut sizes);
    let mut n = 0;
    for q in 0..4 {
        put_queue(rows, counts, &queues, q, sizes[q], out, n);
        n += sizes[q];
    }
    n
}
