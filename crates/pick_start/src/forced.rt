// The forcing rule: too many partials of the Downloading queue for the peers, or too many blocks in them.
ghost use Rattle.std.specs.Prelude.{◌≡◌, ◌+◌, ◌≤◌, ◌<◌, eqb, length};
ghost use Rattle.types.specs.declared.queue.DownloadQueue.TheVariants.{Downloading};
ghost use Rattle.model.specs.Lists.{bit, len};
ghost use Rattle.memory_layout.specs.Bounds.{CellsSpan};
ghost use Rattle.memory_queues.specs.Queues.{queue_held, places_below, InQueues};
ghost use Rattle.pick_start.specs.Starting.{ForcedSays};

use memory_layout::Shape;
use memory_queues::queue_of;

// One more where the queue is Downloading.
fn counted(n: usize, queue: usize) -> usize
    requires { n < 4294967296 }
    ensures { result ≡ n + bit (eqb queue 0) }
{
    if queue == 0 { n + 1 } else { n }
}

// The partials of the Downloading queue, from their rows.
fn count_downloading(cells: &[u16], rows: &[u32], live: usize, s: Shape) -> usize
    requires cells_span { CellsSpan s cells.now }
    requires in_queues { InQueues s live rows.now cells.now }
    requires rows_len { length rows.now ≡ 1536 }
    ensures { result ≡ len (places_below (queue_held cells.now rows.now s.pieces) Downloading live) }
{
    let mut n = 0;
    for k in 0..live {
        let queue = queue_of(cells, rows, s, k);
        n = counted(n, queue);
    }
    n
}

// They are counted only where all partials together could force the rule.
pub fn is_forced(cells: &[u16], rows: &[u32], live: usize, s: Shape, peers: usize) -> bool
    requires cells_span { CellsSpan s cells.now }
    requires in_queues { InQueues s live rows.now cells.now }
    requires rows_len { (length rows.now ≡ 1536) × (peers ≤ 1000) }
    ensures { ForcedSays s live rows.now cells.now peers result }
{
    let most = peers * 3 / 2;
    if (live <= most) & (live * s.blocks <= 2048) {
        return false;
    }
    let n = count_downloading(cells, rows, live, s);
    (most < n) | (2048 < n * s.blocks)
}
