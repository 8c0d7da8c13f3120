// The pieces.
ghost use Rattle.std.specs.Prelude.{◌+◌, ◌*◌, ◌≤◌, ◌<◌, length};
ghost use Rattle.model.specs.Lists.{concat_map};
ghost use Rattle.model.specs.image.Image.{piece_record};
ghost use Rattle.memory_layout.specs.Decode.{piece_held, pieces_held};
ghost use Rattle.memory_layout.specs.Bounds.{Spans, PlainPieces};
ghost use Rattle.image_bytes.specs.Put.{Put};
ghost use Rattle.image_parts.specs.Parts.{Appended};

use image_bytes::body_length;
use image_put::put_piece;
use memory_layout::{Shape, piece_cell, piece_word};
use types::u16_to_u64;

// Piece i.
fn put_piece_at(words: &[u64], cells: &[u16], s: Shape, i: usize, bytes: &mut [u8], at: usize)
    requires spans { (Spans s words.now cells.now) × (PlainPieces s.pieces cells.now) }
    requires i_lt_pieces { (i < s.pieces) × (at + 10 ≤ length bytes.old) }
    ensures { Put at (piece_record (piece_held words.now cells.now s.pieces i)) bytes.old
        bytes.new }
{
    let peer_count = u16_to_u64(piece_cell(cells, s, 0, i));
    let state = u16_to_u64(piece_cell(cells, s, 1, i));
    let priority = u16_to_u64(piece_cell(cells, s, 2, i));
    let flushed = u16_to_u64(piece_cell(cells, s, 3, i));
    let pad_bytes = piece_word(words, s, 0, i);
    put_piece(bytes, at, peer_count, state, priority, flushed, pad_bytes);
}

pub fn put_pieces(words: &[u64], cells: &[u16], s: Shape, bytes: &mut [u8], at: usize) -> usize
    requires spans { (Spans s words.now cells.now) × (PlainPieces s.pieces cells.now) }
    requires pieces_in_bounds { at + 10 * s.pieces ≤ length bytes.old }
    ensures { Appended at (concat_map piece_record (pieces_held words.now cells.now s.pieces))
        bytes.old bytes.new result }
{
    let step = 1 + body_length(2);
    let mut next = at;
    for i in 0..s.pieces {
        put_piece_at(words, cells, s, i, bytes, next);
        next += step;
    }
    next
}
