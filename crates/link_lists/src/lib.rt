// The list and the queues of a picker in lent buffers, for the crates for linking; `link_lists_c` exports it. Only for comparison and
// timing: a caller has to meet what is required. The geometry comes in numbers, as a call has it from the memory test.
#![tactic(auto)]

ghost use Rattle.std.specs.Prelude.{◌≡◌, true, ◌<◌, length};
ghost use Rattle.model.specs.Lists.{nth};
ghost use Rattle.model.specs.list.Order.{update, update_pieces};
ghost use Rattle.model.specs.image.WellFormed.{well_formed};
ghost use Rattle.memory_layout.specs.Decode.{queue_from};
ghost use Rattle.memory_list.specs.Listings.{ListBounds, RanksRight, ListBefore, ListBecame};
ghost use Rattle.memory_rows.specs.Lookup.{LiveRows, picker_in};
ghost use Rattle.memory_queues.specs.Queues.{places_in};
ghost use Rattle.link_lists.specs.Lending.{shaped, RankOf};

use memory_layout::Shape;

// Pieces, blocks of a whole piece, and places for partials.
#[repr(C)]
#[derive(Drop)]
pub struct Geometry {
    pub pieces: usize,
    pub blocks: usize,
    pub places: usize,
}

// The same for the crates below.
impl From<Geometry> for Shape {
    ghost from_gives = { λ g s. s ≡ shaped g.pieces g.blocks g.places };

    fn from(g: Geometry) -> Shape {
        Shape {
            pieces: g.pieces,
            blocks: g.blocks,
            places: g.places,
        }
    }
}

// The rank of piece i.
pub fn ls_rank(words: &[u64], cells: &[u16], g: Geometry, i: usize) -> u16
    requires list_bounds { ListBounds (shaped g.pieces g.blocks g.places) words.now cells.now }
    requires i_lt_pieces { i < g.pieces }
    ensures { RankOf words.now cells.now i result }
{
    memory_ranks::rank_at(words, cells, Shape::from(g), i)
}

// The list mended after piece i came from rank `old` to the one it has. Answers how many draws were used.
pub fn ls_update(
    words: &mut [u64],
    cells: &[u16],
    g: Geometry,
    i: usize,
    old: u16,
    draws: &[u32],
) -> usize
    requires list_bounds { ListBounds (shaped g.pieces g.blocks g.places) words.old cells.now }
    requires i_lt_pieces { i < g.pieces }
    requires list_before { ListBefore (shaped g.pieces g.blocks g.places) words.old cells.now old i }
    ensures { ListBecame (shaped g.pieces g.blocks g.places) (update draws.now old i)
        words.old words.new cells.now 0 result }
{
    let s = Shape::from(g);
    memory_update::update(words, cells, s, i, old, draws, 0)
}

// The list rebuilt where it is dirty. Answers how many draws were used.
pub fn ls_update_pieces(words: &mut [u64], cells: &[u16], g: Geometry, draws: &[u32]) -> usize
    requires list_bounds { ListBounds (shaped g.pieces g.blocks g.places) words.old cells.now }
    requires ranks_right { RanksRight (shaped g.pieces g.blocks g.places) words.old cells.now }
    ensures { ListBecame (shaped g.pieces g.blocks g.places) (update_pieces draws.now)
        words.old words.new cells.now 0 result }
{
    let s = Shape::from(g);
    memory_rebuild::update_pieces(words, cells, s, draws, 0)
}

// Place k of queue q among the partials; 512 where the queue has none. The first `live` rows are the live records.
pub fn ls_queue_place(
    words: &[u64],
    cells: &[u16],
    rows: &[u32],
    live: usize,
    g: Geometry,
    q: usize,
    k: usize,
) -> usize
    requires rows_len { length rows.now ≡ 1536 }
    requires live_rows { LiveRows (shaped g.pieces g.blocks g.places) live rows.now words.now cells.now }
    requires cells_value { well_formed (picker_in live rows.now words.now cells.now) ≡ true }
    requires q_bound { q < 4 }
    ensures { result
        ≡ nth 512 (places_in (queue_from q) (picker_in live rows.now words.now cells.now)) k }
{
    let s = Shape::from(g);
    let mut queues = [[0; 512]; 4];
    let mut sizes = [0; 4];
    memory_queues::download_queues(cells, rows, live, s, &mut queues, &mut sizes);
    if sizes[q] <= k {
        return 512;
    }
    memory_queues::place_at(&queues, q, k)
}
