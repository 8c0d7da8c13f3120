// Peers and seeds counted in and out.
ghost use Rattle.std.specs.Prelude.{◌+◌, ◌<◌};
ghost use Rattle.model.specs.State.{max_peers};
ghost use Rattle.model.specs.change.Changes.{inc_refcount, dec_refcount, inc_refcount_all, dec_refcount_all};
ghost use Rattle.memory_layout.specs.Decode.{head_word, piece_cell};
ghost use Rattle.memory_layout.specs.Standing.{StandsBeside, ChangeMade};
ghost use Rattle.change_steps.specs.Whole.{ChangedBy};
ghost use Rattle.link_lists.specs.Lending.{shaped};

use link_lists::Geometry;
use memory_layout::Shape;

#[unsafe(no_mangle)]
pub extern "C" fn ch_inc_refcount(
    words: &mut [u64],
    cells: &mut [u16],
    g: Geometry,
    i: usize,
    draws: &[u32],
) -> usize
    requires stands_beside { StandsBeside (shaped g.pieces g.blocks g.places) words.old cells.old }
    requires i_lt_pieces { i < g.pieces }
    requires words_bound { piece_cell cells.old g.pieces 0 i + head_word words.old 2 < max_peers }
    ensures { ChangedBy (shaped g.pieces g.blocks g.places) (inc_refcount draws.now i)
        words.old cells.old words.new cells.new result }
{
    let s = Shape::from(g);
    change_counts::inc_refcount(words, cells, s, i, draws)
}

#[unsafe(no_mangle)]
pub extern "C" fn ch_dec_refcount(
    words: &mut [u64],
    cells: &mut [u16],
    g: Geometry,
    i: usize,
    draws: &[u32],
) -> usize
    requires stands_beside { StandsBeside (shaped g.pieces g.blocks g.places) words.old cells.old }
    requires i_lt_pieces { i < g.pieces }
    requires nonzero { 0 < piece_cell cells.old g.pieces 0 i + head_word words.old 2 }
    ensures { ChangedBy (shaped g.pieces g.blocks g.places) (dec_refcount draws.now i)
        words.old cells.old words.new cells.new result }
{
    let s = Shape::from(g);
    change_counts::dec_refcount(words, cells, s, i, draws)
}

#[unsafe(no_mangle)]
pub extern "C" fn ch_inc_refcount_all(words: &mut [u64], cells: &[u16], g: Geometry)
    requires { StandsBeside (shaped g.pieces g.blocks g.places) words.old cells.now }
    ensures { ChangeMade (shaped g.pieces g.blocks g.places) inc_refcount_all
        words.old words.new cells.now cells.now }
{
    let s = Shape::from(g);
    change_seeds::inc_refcount_all(words, cells, s);
}

#[unsafe(no_mangle)]
pub extern "C" fn ch_dec_refcount_all(words: &mut [u64], cells: &mut [u16], g: Geometry)
    requires { StandsBeside (shaped g.pieces g.blocks g.places) words.old cells.old }
    ensures { ChangeMade (shaped g.pieces g.blocks g.places) dec_refcount_all
        words.old words.new cells.old cells.new }
{
    let s = Shape::from(g);
    change_seeds::dec_refcount_all(words, cells, s);
}
