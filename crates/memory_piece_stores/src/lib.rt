// The fields of a piece stored, by its place among the pieces, in the terms of memory_fields: a setter says what becomes of the picker.
// What the memory test would refuse is never stored: a state above 6 is required away, and a flag is only stored as 0 or 1.
#![tactic(auto)]

ghost use Rattle.std.specs.Prelude.{◌≡◌, ◌<◌, ◌≤◌};
ghost use Rattle.model.specs.State.{with_piece, with_peer_count, with_state, with_priority, with_flushed};
ghost use Rattle.memory_layout.specs.Decode.{queue_from};
ghost use Rattle.memory_layout.specs.Changes.{with_cell, with_pad_bytes};
ghost use Rattle.memory_layout.specs.Bounds.{WordsSpan, CellsSpan};
ghost use Rattle.memory_layout.specs.Stores.{CellsBecame};
ghost use Rattle.memory_fields.specs.Storing.{WordsStored};

use memory_layout::{Shape, set_piece_cell, set_piece_word};

// Column f of piece i stored: 0 peer count, 1 state, 2 priority, 3 flushed.
fn set_field(cells: &mut [u16], s: Shape, f: usize, i: usize, v: u16)
    requires cells_span { CellsSpan s cells.old }
    requires f_bound { (f < 4) × (i < s.pieces) }
    requires v_bound { (f ≡ 1 → v ≤ 6) × (f ≡ 3 → v ≤ 1) }
    ensures { CellsBecame s (with_piece i (with_cell f v)) cells.old cells.new }
{
    set_piece_cell(cells, s, f, i, v);
}

pub fn set_peer_count(cells: &mut [u16], s: Shape, i: usize, v: u16)
    requires cells_span { CellsSpan s cells.old }
    requires i_lt_pieces { i < s.pieces }
    ensures { CellsBecame s (with_piece i (with_peer_count v)) cells.old cells.new }
{
    set_field(cells, s, 0, i, v);
}

pub fn set_state(cells: &mut [u16], s: Shape, i: usize, v: u16)
    requires cells_span { CellsSpan s cells.old }
    requires i_lt_pieces { (i < s.pieces) × (v ≤ 6) }
    ensures { CellsBecame s (with_piece i (with_state (queue_from v))) cells.old cells.new }
{
    set_field(cells, s, 1, i, v);
}

pub fn set_priority(cells: &mut [u16], s: Shape, i: usize, v: u16)
    requires cells_span { CellsSpan s cells.old }
    requires i_lt_pieces { i < s.pieces }
    ensures { CellsBecame s (with_piece i (with_priority v)) cells.old cells.new }
{
    set_field(cells, s, 2, i, v);
}

// Flushed from here on.
pub fn set_flushed(cells: &mut [u16], s: Shape, i: usize)
    requires cells_span { CellsSpan s cells.old }
    requires i_lt_pieces { i < s.pieces }
    ensures { CellsBecame s (with_piece i with_flushed) cells.old cells.new }
{
    set_field(cells, s, 3, i, 1);
}

pub fn set_pad_bytes(words: &mut [u64], s: Shape, i: usize, v: u64)
    requires words_span { WordsSpan s words.old }
    requires i_lt_pieces { i < s.pieces }
    ensures { WordsStored s (with_piece i (with_pad_bytes v)) words.old words.new }
{
    set_piece_word(words, s, 0, i, v);
}
