// The blocks of a partial that another peer was asked for and that have not come.
ghost use Rattle.std.specs.Prelude.{◌≡◌, ◌≤◌, ◌<◌, length};
ghost use Rattle.types.specs.Peer.{named_peer};
ghost use Rattle.memory_layout.specs.Bounds.{Spans};
ghost use Rattle.memory_layout.specs.Changes.{partial_in};
ghost use Rattle.memory_rows.specs.Lookup.{picker_in};
ghost use Rattle.ask_picker.specs.Asked.{Asked};
ghost use Rattle.pick_busy.specs.Busy.{BusySays, BusyAt, BusyIn};

use memory_blocks::{BlockInfo, get_block, same_peer};
use memory_layout::Shape;
use memory_records::row;
use pick_append::push;
use pick_partial::blocks_of;
use pick_state::PickRequest;
use types::u32_to_usize;

// A block is one of them.
fn is_busy(b: BlockInfo, q: PickRequest) -> bool
    ensures { BusySays (named_peer q.has_peer q.peer) b result }
{
    let same = same_peer(b, q.has_peer, q.peer);
    (b.state == 1) & !same
}

// Those of the first blocks of a place, in a row: how many.
fn busy_at(
    words: &[u64],
    cells: &[u16],
    s: Shape,
    place: usize,
    many: usize,
    q: PickRequest,
    blocks: &mut [u16; 512],
) -> usize
    requires spans { Spans s words.now cells.now }
    requires place_lt_places { (place < s.places) × (many ≤ s.blocks) }
    requires blocks_len { length blocks.old ≡ 512 }
    ensures { BusyAt words.now cells.now s place many (named_peer q.has_peer q.peer) result blocks.new }
{
    let mut n = 0;
    for j in 0..many {
        let b = get_block(words, cells, s, place, j);
        let busy = is_busy(b, q);
        n = push(blocks, n, j, busy);
    }
    n
}

// Those of partial k.
pub fn busy_blocks(
    words: &[u64],
    cells: &[u16],
    rows: &[u32],
    live: usize,
    s: Shape,
    q: PickRequest,
    k: usize,
    blocks: &mut [u16; 512],
) -> usize
    requires asked { Asked s live rows.now words.now cells.now }
    requires k_lt_live { (k < live) × (length blocks.old ≡ 512) }
    ensures { BusyIn q (partial_in (picker_in live rows.now words.now cells.now) k) result blocks.new }
{
    let d = row(rows, k);
    let many = blocks_of(words, s, u32_to_usize(d.index));
    busy_at(words, cells, s, u32_to_usize(d.info_idx), many, q, blocks)
}
