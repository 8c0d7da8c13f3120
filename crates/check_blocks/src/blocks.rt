// The cells of a partial's blocks: whether they are an image's and in range, and how many are requested, being written and finished.
ghost use Rattle.std.specs.Prelude.{◌≡◌, ◌&&◌, ◌+◌, ◌<◌, ◌≤◌, length, eqb};
ghost use Rattle.model.specs.Lists.{bit};
ghost use Rattle.memory_layout.specs.Bounds.{CellsSpan};
ghost use Rattle.check_blocks.specs.Below.{all_below};
ghost use Rattle.check_blocks.specs.Rows.{row_ok, joined_ok, row_in, state_of, rows_ok, in_state};

use memory_layout::{Shape, block_column};

#[derive(Clone, Copy)]
pub struct Counts {
    pub requested: u16,
    pub writing: u16,
    pub finished: u16,
}

#[derive(Drop)]
pub struct Counted {
    pub ok: bool,
    pub counts: Counts,
}

// The cells of blocks, joined by `|` field by field; of num_peers what is beyond the most.
#[derive(Drop)]
struct Joined {
    states: u16,
    beyond: u16,
    flags: u16,
}

// One block's cells joined to those before it. There is no branch: a bit that is wrong stays in the joined cells, which are tested once
// at the end. So the compiled loop takes many blocks at once.
fn join(sum: Joined, state: u16, num_peers: u16, has: u16) -> Joined
    ensures { joined_ok result ≡ (joined_ok sum && row_ok state num_peers has) }
{
    Joined {
        states: sum.states | state,
        beyond: sum.beyond | num_peers.saturating_sub(1000),
        flags: sum.flags | has,
    }
}

// No wrong bit is in the joined cells.
fn joined_ok(sum: Joined) -> bool
    ensures { result ≡ joined_ok sum }
{
    (sum.states < 4) & (sum.beyond < 1) & (sum.flags < 2)
}

pub fn one_if(t: bool) -> u16
    ensures is { result ≡ bit t }
    ensures most { result ≤ 1 }
{
    u16::from(t)
}

// One block more.
fn count_block(c: Counts, state: u16) -> Counts
    requires { (c.requested < 65535) × (c.writing < 65535) × (c.finished < 65535) }
    ensures { (result.requested ≡ c.requested + bit (eqb state 1)) × (result.writing ≡ c.writing + bit (eqb state 2))
        × (result.finished ≡ c.finished + bit (eqb state 3)) }
{
    Counts {
        requested: c.requested + one_if(state == 1),
        writing: c.writing + one_if(state == 2),
        finished: c.finished + one_if(state == 3),
    }
}

// One pass over the cells of many blocks, a slice for each field.
fn rows_pass(states: &[u16], num_peers: &[u16], has: &[u16], many: usize) -> Counted
    requires { (many ≤ length states.now) × (many ≤ length num_peers.now) × (many ≤ length has.now) × (many ≤ 256) }
    ensures all { result.ok ≡ all_below (row_in states.now num_peers.now has.now) many }
    ensures requested { result.counts.requested ≡ state_of states.now 1 many }
    ensures writing { result.counts.writing ≡ state_of states.now 2 many }
    ensures finished { result.counts.finished ≡ state_of states.now 3 many }
{
    let mut sum = Joined {
        states: 0,
        beyond: 0,
        flags: 0,
    };
    let mut counts = Counts {
        requested: 0,
        writing: 0,
        finished: 0,
    };
    for j in 0..many {
        let state = states[j];
        sum = join(sum, state, num_peers[j], has[j]);
        counts = count_block(counts, state);
    }
    Counted {
        ok: joined_ok(sum),
        counts,
    }
}

// The first blocks of a place.
pub fn blocks_ok(cells: &[u16], s: Shape, place: usize, many: usize) -> Counted
    requires cells_span { CellsSpan s cells.now }
    requires place_lt_places { (place < s.places) × (many ≤ s.blocks) }
    ensures all { result.ok ≡ rows_ok cells.now s.pieces s.blocks place many }
    ensures requested { result.counts.requested ≡ in_state cells.now s.pieces s.blocks place 1 many }
    ensures writing { result.counts.writing ≡ in_state cells.now s.pieces s.blocks place 2 many }
    ensures finished { result.counts.finished ≡ in_state cells.now s.pieces s.blocks place 3 many }
{
    let states = block_column(cells, s, 0, place, many);
    let num_peers = block_column(cells, s, 1, place, many);
    let has = block_column(cells, s, 2, place, many);
    rows_pass(states, num_peers, has, many)
}
