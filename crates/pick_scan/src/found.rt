// The partials that a pick may take from, by rising piece.
ghost use Rattle.std.specs.Prelude.{◌≡◌, ◌+◌, ◌<◌, length};
ghost use Rattle.types.specs.declared.queue.DownloadQueue.TheVariants.{Downloading};
ghost use Rattle.model.specs.Lists.{bit};
ghost use Rattle.model.specs.State.{same_queue};
ghost use Rattle.model.specs.pick.Pick.{usable};
ghost use Rattle.memory_layout.specs.Changes.{partial_in};
ghost use Rattle.memory_rows.specs.Lookup.{picker_in};
ghost use Rattle.memory_queues.specs.Queues.{queue_in};
ghost use Rattle.ask_picker.specs.Asked.{Asked};
ghost use Rattle.pick_state.specs.Requests.{request_of};
ghost use Rattle.pick_free.specs.Picking.{Picks};
ghost use Rattle.pick_scan.specs.Scans.{Scanned};

use memory_layout::Shape;
use memory_queues::queue_of;
use memory_records::row;
use pick_append::push;
use pick_free::is_piece_free;
use pick_state::PickRequest;
use types::u32_to_usize;

// How many were found, and how many partials are in the Downloading queue.
#[derive(Drop)]
pub struct Scan {
    pub many: usize,
    pub downloading: usize,
}

// Partial k is in the Downloading queue.
fn is_downloading(
    words: &[u64],
    cells: &[u16],
    rows: &[u32],
    live: usize,
    s: Shape,
    k: usize,
) -> bool
    requires asked { Asked s live rows.now words.now cells.now }
    requires k_lt_live { k < live }
    ensures { result ≡ same_queue (queue_in (picker_in live rows.now words.now cells.now) k) Downloading }
{
    queue_of(cells, rows, s, k) == 0
}

// Its piece is free for the peer, and it is not locked.
fn is_usable(
    words: &[u64],
    cells: &[u16],
    rows: &[u32],
    live: usize,
    s: Shape,
    q: PickRequest,
    bytes: &[u8],
    k: usize,
) -> bool
    requires picks { Picks s live rows.now words.now cells.now q }
    requires k_lt_live { k < live }
    ensures { result ≡ usable (request_of q bytes.now)
        (picker_in live rows.now words.now cells.now)
        (partial_in (picker_in live rows.now words.now cells.now) k) }
{
    let d = row(rows, k);
    let free = is_piece_free(cells, s, q, bytes, u32_to_usize(d.index));
    free & (d.flags / 2 % 2 != 1)
}

// One more, where it counts.
fn one_more(n: usize, counts: bool) -> usize
    requires { n < 512 }
    ensures { result ≡ n + bit counts }
{
    if counts { n + 1 } else { n }
}

// The places of all that a pick may take from; each partial in the Downloading queue is counted, whether it can be picked from or not.
pub fn scan_partials(
    words: &[u64],
    cells: &[u16],
    rows: &[u32],
    live: usize,
    s: Shape,
    q: PickRequest,
    bytes: &[u8],
    places: &mut [u16; 512],
) -> Scan
    requires picks { Picks s live rows.now words.now cells.now q }
    requires places_len { length places.old ≡ 512 }
    ensures { Scanned (request_of q bytes.now)
        (picker_in live rows.now words.now cells.now) live result places.new }
{
    let mut n = 0;
    let mut downloading = 0;
    for k in 0..live {
        let listed = is_downloading(words, cells, rows, live, s, k);
        let usable = is_usable(words, cells, rows, live, s, q, bytes, k);
        n = push(places, n, k, listed & usable);
        downloading = one_more(downloading, listed);
    }
    Scan {
        many: n,
        downloading: downloading,
    }
}
