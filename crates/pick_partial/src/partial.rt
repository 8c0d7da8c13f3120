// What partial k adds.
ghost use Rattle.std.specs.Prelude.{◌≡◌, ◌&&◌, not, ◌≤◌, ◌<◌, length};
ghost use Rattle.model.specs.Bep3.{bit_of};
ghost use Rattle.model.specs.pick.Blocks.{has_bit, add_blocks_downloading};
ghost use Rattle.memory_records.specs.Rows.{row_at};
ghost use Rattle.memory_layout.specs.Decode.{blocks_of};
ghost use Rattle.memory_layout.specs.Changes.{partial_in};
ghost use Rattle.memory_layout.specs.Bounds.{ShapeOf, WordsSpan, Spans};
ghost use Rattle.memory_rows.specs.Lookup.{picker_in};
ghost use Rattle.pick_state.specs.Requests.{request_of};
ghost use Rattle.pick_free.specs.Picking.{Picks};
ghost use Rattle.pick_partial.specs.Adding.{HasRoom, BlocksDid, PlainAt, FreeDid};

use crate::adding::use_free;
use geometry::blocks_at;
use memory_layout::{Shape, block_column, head_word};
use memory_records::row;
use pick_free::has_bit;
use pick_requested::known_of;
use pick_state::{PickNumbers, PickRequest};
use types::{PickerOptions, u32_to_usize, u64_to_usize, usize_to_u64};

// The peer has the piece of row k, and it is not locked.
pub fn open_to(rows: &[u32], k: usize, q: PickRequest, bytes: &[u8]) -> bool
    requires { (k < 512) × (length rows.now ≡ 1536) }
    ensures { result
        ≡ (has_bit (request_of q bytes.now) (row_at rows.now k).index && not (bit_of (row_at rows.now k).flags 1)) }
{
    let d = row(rows, k);
    let has = has_bit(bytes, q, u32_to_usize(d.index));
    has & (d.flags / 2 % 2 != 1)
}

// How many blocks piece i has.
pub fn blocks_of(words: &[u64], s: Shape, i: usize) -> usize
    requires { (WordsSpan s words.now) × (ShapeOf s words.now) × (i < s.pieces) }
    ensures { result ≡ blocks_of words.now i }
{
    let total = head_word(words, 0);
    let size = head_word(words, 1);
    u64_to_usize(blocks_at(total, size, usize_to_u64(i)))
}

// What the blocks of piece i at a place add, for a peer that has it.
fn add_free(
    words: &[u64],
    cells: &[u16],
    s: Shape,
    q: PickRequest,
    i: usize,
    place: usize,
    many: usize,
    out: &mut [u64],
    aside: &mut [u64],
    t: PickNumbers,
) -> PickNumbers
    requires spans { (Spans s words.now cells.now) × (PlainAt s cells.now place many) }
    requires i_bound { (i < 4096) × (place < s.places) × (many ≤ s.blocks) × (0 < many) }
    requires has_room { HasRoom t out.old aside.old }
    ensures { FreeDid words.now cells.now s q i place many t result out.old aside.old
        out.new aside.new }
{
    let h = known_of(words, cells, s, place, many, q, t);
    let parole = q.options.contains(PickerOptions::ON_PAROLE);
    if parole & !h.exclusive {
        return t;
    }
    let states = block_column(cells, s, 0, place, many);
    use_free(states, i, h, out, aside, t)
}

// Nothing where the peer lacks the piece, it is locked or, on parole, another touched it.
pub fn add_blocks_downloading(
    words: &[u64],
    cells: &[u16],
    rows: &[u32],
    live: usize,
    s: Shape,
    q: PickRequest,
    bytes: &[u8],
    out: &mut [u64],
    aside: &mut [u64],
    t: PickNumbers,
    k: usize,
) -> PickNumbers
    requires picks { (Picks s live rows.now words.now cells.now q) × (k < live) }
    requires has_room { HasRoom t out.old aside.old }
    ensures { BlocksDid (add_blocks_downloading (request_of q bytes.now)
        (partial_in (picker_in live rows.now words.now cells.now) k)) t result out.old aside.old
        out.new aside.new }
{
    if !open_to(rows, k, q, bytes) {
        return t;
    }
    let d = row(rows, k);
    let i = u32_to_usize(d.index);
    let many = blocks_of(words, s, i);
    add_free(
        words,
        cells,
        s,
        q,
        i,
        u32_to_usize(d.info_idx),
        many,
        out,
        aside,
        t,
    )
}
