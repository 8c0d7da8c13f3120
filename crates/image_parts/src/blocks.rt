// The blocks of a partial.
ghost use Rattle.std.specs.Prelude.{◌≡◌, ◌+◌, ◌*◌, ◌≤◌, ◌<◌, length};
ghost use Rattle.model.specs.Lists.{concat_map};
ghost use Rattle.model.specs.image.Image.{block_record};
ghost use Rattle.memory_layout.specs.Tables.{tabulate};
ghost use Rattle.memory_layout.specs.Decode.{block_held};
ghost use Rattle.memory_layout.specs.Bounds.{Spans, PlainBlock};
ghost use Rattle.image_bytes.specs.Put.{Put};
ghost use Rattle.image_parts.specs.Parts.{Appended, peer_written, PlainBlocks};

use image_bytes::body_length;
use image_put::put_block;
use memory_layout::{Shape, block_cell, peer_word};
use types::u16_to_u64;

// The peer, or 0 where there is none: what stands beside a has-peer of 0 means nothing. A product, since a branch would be guessed wrong as
// often as right.
fn peer_or_zero(has: u64, peer: u64) -> u64
    requires { has ≤ 1 }
    ensures { result ≡ peer_written has peer }
{
    has * peer
}

// Block j of place p.
fn put_block_at(
    words: &[u64],
    cells: &[u16],
    s: Shape,
    p: usize,
    j: usize,
    bytes: &mut [u8],
    at: usize,
)
    requires spans { (Spans s words.now cells.now) × (PlainBlock s.pieces s.blocks cells.now p j) }
    requires p_lt_places { (p < s.places) × (j < s.blocks) × (at + 13 ≤ length bytes.old) }
    ensures { Put at (block_record (block_held words.now cells.now s.pieces s.blocks p j))
        bytes.old bytes.new }
{
    let state = u16_to_u64(block_cell(cells, s, 0, p, j));
    let num_peers = u16_to_u64(block_cell(cells, s, 1, p, j));
    let has = u16_to_u64(block_cell(cells, s, 2, p, j));
    let peer = peer_or_zero(has, peer_word(words, s, p, j));
    put_block(bytes, at, state, num_peers, has, peer);
}

// The first blocks of place p.
pub fn put_blocks(
    words: &[u64],
    cells: &[u16],
    s: Shape,
    p: usize,
    many: usize,
    bytes: &mut [u8],
    at: usize,
) -> usize
    requires spans { (Spans s words.now cells.now) × (PlainBlocks s cells.now p many) }
    requires p_lt_places { (p < s.places) × (many ≤ s.blocks) × (at + 13 * many ≤ length bytes.old) }
    ensures { Appended at
        (concat_map block_record (tabulate many (block_held words.now cells.now s.pieces s.blocks p)))
        bytes.old bytes.new result }
{
    let step = 1 + body_length(4);
    let mut next = at;
    for j in 0..many {
        put_block_at(words, cells, s, p, j, bytes, next);
        next += step;
    }
    next
}
