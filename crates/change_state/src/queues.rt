// The queue of a piece, read from its cell.
ghost use Rattle.std.specs.Prelude.{◌≡◌, ◌||◌, ◌<◌};
ghost use Rattle.types.specs.Queue.{queue_number};
ghost use Rattle.model.specs.State.{piece_at, same_queue, is_open};
ghost use Rattle.memory_layout.specs.Decode.{queue_from};
ghost use Rattle.memory_layout.specs.Bounds.{CellsSpan};
ghost use Rattle.memory_fields.specs.Reading.{CellsSay};

use memory_layout::{Shape, piece_cell};
use types::DownloadQueue;

// The queue that a number means: one that no queue has is read as Open.
fn queue_from(v: u16) -> DownloadQueue
    ensures { result ≡ queue_from v }
{
    let Ok(n) = u8::try_from(v) else {
        return DownloadQueue::Open;
    };
    DownloadQueue::try_from(n).unwrap_or(DownloadQueue::Open)
}

// The queue of piece i.
pub fn queue_at(cells: &[u16], s: Shape, i: usize) -> DownloadQueue
    requires cells_span { CellsSpan s cells.now }
    requires i_lt_pieces { i < s.pieces }
    ensures { CellsSay s cells.now (λ d. (piece_at d i).state) result }
{
    let v = piece_cell(cells, s, 1, i);
    queue_from(v)
}

// The number that a cell holds for a queue.
pub fn queue_number(q: DownloadQueue) -> u16
    ensures { (result ≡ queue_number q) × (result < 7) }
{
    u16::from(q.number())
}

// A piece that is in queue `current` stays there: the new one is the same, or says to leave it.
pub fn is_left(q: DownloadQueue, current: DownloadQueue) -> bool
    ensures { result ≡ (same_queue q current || is_open q) }
{
    (q == current) | (q == DownloadQueue::Open)
}
