// The end game: Full pieces drawn in turn, until one has a block for this peer.
ghost use Rattle.std.specs.Prelude.{◌≡◌, ◌+◌, ◌≤◌, ◌<◌, length, take};
ghost use Rattle.memory_rows.specs.Lookup.{picker_in};
ghost use Rattle.ask_picker.specs.Asked.{Asked};
ghost use Rattle.pick_free.specs.Picking.{Picks};
ghost use Rattle.pick_state.specs.PickStates.{OutDid};
ghost use Rattle.pick_state.specs.Requests.{request_of};
ghost use Rattle.pick_busy.specs.Full.{PlacesIn};
ghost use Rattle.pick_rest.specs.Game.{found_block, with_used, BlocksIn, Tried, GameDid, EndGameDid, CountRoom};

use list_draws::draw;
use memory_layout::Shape;
use pick_busy::{busy_blocks, full_partials};
use pick_state::{PickNumbers, PickRequest, count, flagged};
use types::{PickerFlags, u16_to_usize, u32_to_usize, usize_to_u64};

// The numbers of the pick, how many pieces are left to try, and whether a block was found.
#[derive(Drop)]
pub struct Game {
    pub t: PickNumbers,
    pub many: usize,
    pub found: bool,
}

// One draw more.
fn drawn(t: PickNumbers) -> PickNumbers
    requires { t.used < 4294967296 }
    ensures { result ≡ with_used (t.used + 1) t }
{
    PickNumbers {
        used: t.used + 1,
        ..t
    }
}

// Block j of piece i found by a draw: as many stay wanted.
fn take_found(out: &mut [u64], t: PickNumbers, i: usize, j: usize) -> PickNumbers
    requires end_in_bounds { (t.end < length out.old) × (t.used < 4294967296) }
    requires i_bound { (i < 4096) × (j < 256) }
    ensures did { OutDid (found_block i j) 1 t result out.old out.new }
    ensures used { result.used ≡ t.used + 1 }
{
    let end = t.end;
    let u = flagged(t, PickerFlags::END_GAME);
    out[end] = usize_to_u64(i * 65536 + j);
    PickNumbers {
        used: t.used + 1,
        flags: u.flags,
        end: end + 1,
        ..t
    }
}

// The piece at place k of the row goes, where none of its blocks is for this peer; else one of them is drawn.
fn end_game_try(
    draws: &[u32],
    out: &mut [u64],
    places: &mut [u16; 512],
    t: PickNumbers,
    many: usize,
    k: usize,
    i: usize,
    blocks: &[u16; 512],
    n: usize,
) -> Game
    requires end_in_bounds { (t.end < length out.old) × (t.used < 4294967296) × (i < 4096) }
    requires k_lt_many { (k < many) × (many ≤ 512) × (length places.old ≡ 512) }
    requires blocks_in { BlocksIn n blocks.now }
    ensures { Tried draws.now k i (take n blocks.now) t many result places.old places.new
        out.old out.new }
{
    if n == 0 {
        let last = many - 1;
        places[k] = places[last];
        return Game {
            t: t,
            many: last,
            found: false,
        };
    }
    let at = draw(draws, t.used, n - 1);
    let j = u16_to_usize(blocks[at]);
    let r = take_found(out, t, i, j);
    Game {
        t: r,
        many: many,
        found: true,
    }
}

// A Full piece drawn, counted and tried.
fn end_game_step(
    words: &[u64],
    cells: &[u16],
    rows: &[u32],
    live: usize,
    s: Shape,
    q: PickRequest,
    draws: &[u32],
    out: &mut [u64],
    loops: &mut [u64],
    places: &mut [u16; 512],
    t: PickNumbers,
    many: usize,
) -> Game
    requires asked { Asked s live rows.now words.now cells.now }
    requires end_in_bounds { (t.end < length out.old) × (t.used < 4294967295) × (CountRoom 1 loops.old) }
    requires many_nonzero { (0 < many) × (PlacesIn live many places.old) }
    ensures { GameDid draws.now q (picker_in live rows.now words.now cells.now) live t many result
        places.old places.new out.old out.new loops.old loops.new }
{
    let k = draw(draws, t.used, many - 1);
    let place = u16_to_usize(places[k]);
    let i = u32_to_usize(rows[place]);
    let mut blocks = [0; 512];
    let n = busy_blocks(words, cells, rows, live, s, q, place, &mut blocks);
    count(loops, 6);
    end_game_try(draws, out, places, drawn(t), many, k, i, &blocks, n)
}

// As long as pieces are left and none was found.
pub fn pick_end_game(
    words: &[u64],
    cells: &[u16],
    rows: &[u32],
    live: usize,
    s: Shape,
    q: PickRequest,
    bytes: &[u8],
    draws: &[u32],
    out: &mut [u64],
    loops: &mut [u64],
    t: PickNumbers,
) -> PickNumbers
    requires picks { Picks s live rows.now words.now cells.now q }
    requires end_in_bounds { (t.end < length out.old) × (t.used + 401 < 4294967296) × (CountRoom 200 loops.old) }
    ensures { EndGameDid draws.now (request_of q bytes.now)
        (picker_in live rows.now words.now cells.now) t result out.old out.new loops.old
        loops.new }
{
    let mut places = [0; 512];
    let n = full_partials(cells, rows, live, s, q, bytes, &mut places);
    let mut cur = t;
    let mut many = n;
    let mut found = false;
    // No `for`: a try that finds a block ends the walk, and one that finds none takes a piece off the row.
    while !found & (0 < many) {
        let game = end_game_step(
            words,
            cells,
            rows,
            live,
            s,
            q,
            draws,
            out,
            loops,
            &mut places,
            cur,
            many,
        );
        cur = game.t;
        many = game.many;
        found = game.found;
    }
    cur
}
