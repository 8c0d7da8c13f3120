// The download queues: four rows of 512 places, one sorted row for each queue. A row holds the places, among the partials, of the partials
// whose pieces are in its queue.
#![tactic(auto)]

ghost use Rattle.std.specs.Prelude.{◌≡◌, [], ◌+◌, ◌<◌, ◌≤◌, length, get_or};
ghost use Rattle.types.specs.Queue.{queue_number};
ghost use Rattle.model.specs.Lists.{nth, set_nth};
ghost use Rattle.memory_layout.specs.Decode.{piece_cell};
ghost use Rattle.memory_layout.specs.Bounds.{CellsSpan};
ghost use Rattle.memory_queues.specs.Queues.{queue_held, Shaped, InQueues, Filled};

use memory_layout::{Shape, piece_cell};
use types::{u16_to_usize, u32_to_usize};

// The number of the queue of partial k. A reverse state stands five numbers above the plain one, so the remainder has no direction.
pub fn queue_of(cells: &[u16], rows: &[u32], s: Shape, k: usize) -> usize
    requires cells_span { CellsSpan s cells.now }
    requires k_bound { (k < 512) × (length rows.now ≡ 1536) }
    requires k_bound_2 { (get_or rows.now k 0 < s.pieces) × (piece_cell cells.now s.pieces 1 (get_or rows.now k 0) ≤ 6) }
    ensures { result ≡ queue_number (queue_held cells.now rows.now s.pieces k) }
{
    let piece = u32_to_usize(rows[k]);
    let state = piece_cell(cells, s, 1, piece);
    u16_to_usize(state % 5)
}

// Place k behind those that row q has.
fn enter(queues: &mut [[u16; 512]; 4], sizes: &mut [usize; 4], q: usize, k: usize)
    requires q_bound { q < 4 }
    requires q_bound_2 { (nth 0 sizes.old q < 512) × (k < 512) }
    ensures queues_after { queues.new
        ≡ set_nth q (set_nth (nth 0 sizes.old q) k (nth [] queues.old q)) queues.old }
    ensures sizes_after { sizes.new ≡ set_nth q (nth 0 sizes.old q + 1) sizes.old }
{
    let n = sizes[q];
    queues[q][n] = k as u16;
    sizes[q] = n + 1;
}

// All partials in the rows of their queues, whatever the rows held before.
pub fn download_queues(
    cells: &[u16],
    rows: &[u32],
    live: usize,
    s: Shape,
    queues: &mut [[u16; 512]; 4],
    sizes: &mut [usize; 4],
)
    requires cells_span { CellsSpan s cells.now }
    requires rows_len { length rows.now ≡ 1536 }
    requires in_queues { InQueues s live rows.now cells.now }
    requires shaped { Shaped queues.old }
    ensures { Filled s live rows.now cells.now queues.new sizes.new }
{
    *sizes = [0; 4];
    for k in 0..live {
        let q = queue_of(cells, rows, s, k);
        enter(queues, sizes, q, k);
    }
}

// Place k of row q.
pub fn place_at(queues: &[[u16; 512]; 4], q: usize, k: usize) -> usize
    requires { (q < 4) × (k < 512) }
    ensures { result ≡ nth 0 (nth [] queues.now q) k }
{
    u16_to_usize(queues[q][k])
}
