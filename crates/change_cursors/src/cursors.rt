// The cursors in the head. A piece is named by its place, which is below the number of pieces.
ghost use Rattle.std.specs.Prelude.{◌<◌};
ghost use Rattle.model.specs.change.Changes.{empty_range, advance_cursors, cursors_on_filter};
ghost use Rattle.memory_layout.specs.Bounds.{WordsSpan, Spans};
ghost use Rattle.memory_fields.specs.Storing.{WordsStored, StoredBeside};

use crate::scans::{cursor_from, reverse_from};
use memory_fields::{cursor, reverse_cursor};
use memory_head_stores::{set_cursor, set_reverse_cursor};
use memory_layout::Shape;
use types::usize_to_u64;

// The cursors past each other: no piece between them.
pub fn empty_range(words: &mut [u64], s: Shape)
    requires { WordsSpan s words.old }
    ensures { WordsStored s empty_range words.old words.new }
{
    set_cursor(words, s, usize_to_u64(s.pieces));
    set_reverse_cursor(words, s, 0);
}

// Piece i is flushed or filtered now: a cursor that stands at it moves on.
pub fn advance_cursors(words: &mut [u64], cells: &[u16], s: Shape, i: usize)
    requires spans { Spans s words.old cells.now }
    requires i_lt_pieces { i < s.pieces }
    ensures { StoredBeside s (advance_cursors i) cells.now words.old words.new }
{
    let at_front = cursor(words, s) == usize_to_u64(i);
    let at_back = reverse_cursor(words, s) == usize_to_u64(i + 1);
    if at_front & at_back {
        empty_range(words, s);
        return;
    }
    if at_front {
        set_cursor(words, s, usize_to_u64(cursor_from(cells, s, i + 1)));
        return;
    }
    if at_back {
        set_reverse_cursor(words, s, usize_to_u64(reverse_from(cells, s, i)));
        return;
    }
}

// Piece i, which is not flushed, gets priority 0, or another one after it.
pub fn cursors_on_filter(words: &mut [u64], cells: &[u16], s: Shape, i: usize, priority: u16)
    requires spans { Spans s words.old cells.now }
    requires i_lt_pieces { i < s.pieces }
    ensures { StoredBeside s (cursors_on_filter i priority) cells.now words.old words.new }
{
    if priority == 0 {
        advance_cursors(words, cells, s, i);
        return;
    }
    if cursor(words, s) == reverse_cursor(words, s) {
        empty_range(words, s);
        return;
    }
}
