// The Full pieces that the peer has.
ghost use Rattle.std.specs.Prelude.{◌≡◌, ◌&&◌, ◌≤◌, ◌<◌, eqb, length, get_or};
ghost use Rattle.types.specs.Queue.{queue_number};
ghost use Rattle.model.specs.pick.Blocks.{has_bit};
ghost use Rattle.memory_layout.specs.Decode.{piece_cell};
ghost use Rattle.memory_layout.specs.Bounds.{CellsSpan};
ghost use Rattle.memory_queues.specs.Queues.{queue_held, InQueues};
ghost use Rattle.pick_state.specs.Requests.{request_of};
ghost use Rattle.pick_busy.specs.Full.{FullRow};

use memory_layout::Shape;
use memory_queues::queue_of;
use pick_append::push;
use pick_free::has_bit;
use pick_state::PickRequest;
use types::u32_to_usize;

// Partial k is one of them.
fn is_full(cells: &[u16], rows: &[u32], s: Shape, q: PickRequest, bytes: &[u8], k: usize) -> bool
    requires cells_span { CellsSpan s cells.now }
    requires k_bound { (k < 512) × (length rows.now ≡ 1536) }
    requires k_bound_2 { (get_or rows.now k 0 < s.pieces) × (piece_cell cells.now s.pieces 1 (get_or rows.now k 0) ≤ 6) }
    ensures { result ≡ (eqb (queue_number (queue_held cells.now rows.now s.pieces k)) 1
        && has_bit (request_of q bytes.now) (get_or rows.now k 0)) }
{
    let queue = queue_of(cells, rows, s, k);
    let has = has_bit(bytes, q, u32_to_usize(rows[k]));
    (queue == 1) & has
}

// Their places in a row: how many, and no more than 200 of them.
pub fn full_partials(
    cells: &[u16],
    rows: &[u32],
    live: usize,
    s: Shape,
    q: PickRequest,
    bytes: &[u8],
    places: &mut [u16; 512],
) -> usize
    requires cells_span { CellsSpan s cells.now }
    requires in_queues { InQueues s live rows.now cells.now }
    requires rows_len { (length rows.now ≡ 1536) × (length places.old ≡ 512) }
    ensures { FullRow s live rows.now cells.now q bytes.now result places.new }
{
    let mut n = 0;
    for k in 0..live {
        let full = is_full(cells, rows, s, q, bytes, k);
        n = push(places, n, k, full);
    }
    if 200 < n {
        return 200;
    }
    n
}
