// A peer or none for each block: two words a record, 1 and the peer, or 0 and 0 for none.
ghost use Rattle.std.specs.Prelude.{◌≡◌, [], ◌∷◌, ◌*◌, ◌≤◌, ◌<◌, length};
ghost use Rattle.std.proofs.Math.Option.{none};
ghost use Rattle.model.specs.ask.Questions.{list_piece, get_downloaders};
ghost use Rattle.memory_layout.specs.Decode.{block_held};
ghost use Rattle.memory_layout.specs.Bounds.{Spans};
ghost use Rattle.memory_rows.specs.Lookup.{picker_in};
ghost use Rattle.ask_picker.specs.Asked.{Asked};
ghost use Rattle.ask_records.specs.Records.{peer_read, told_reply, Lists, Written};

use crate::words::{bit_of, peer_or_zero, put_words};
use ask_piece::blocks_in_piece;
use memory_blocks::get_block;
use memory_layout::Shape;
use memory_records::row;
use memory_rows::find;
use types::{u32_to_usize, u64_to_usize};

// Those of the first blocks of place p.
fn peers_at(words: &[u64], cells: &[u16], s: Shape, p: usize, many: usize, out: &mut [u64])
    requires spans { Spans s words.now cells.now }
    requires p_lt_places { (p < s.places) × (many ≤ s.blocks) }
    requires many_in_bounds { 2 * many ≤ length out.old }
    ensures { Lists 2 peer_read
        (λ j. (block_held words.now cells.now s.pieces s.blocks p j).peer ∷ []) many out.old
        out.new }
{
    for j in 0..many {
        let x = get_block(words, cells, s, p, j);
        let pair = [bit_of(x.has_peer), peer_or_zero(x.has_peer, x.peer)];
        put_words(out, 2 * j, &pair);
    }
}

// None for each of so many.
fn no_peers(many: usize, out: &mut [u64])
    requires { 2 * many ≤ length out.old }
    ensures { Lists 2 peer_read (λ j. none ∷ []) many out.old out.new }
{
    for j in 0..many {
        let pair = [0, 0];
        put_words(out, 2 * j, &pair);
    }
}

// How many records were written.
pub fn get_downloaders(
    words: &[u64],
    cells: &[u16],
    rows: &[u32],
    live: usize,
    s: Shape,
    i: usize,
    out: &mut [u64],
) -> usize
    requires asked { Asked s live rows.now words.now cells.now }
    requires i_lt_pieces { i < s.pieces }
    requires blocks_in_bounds { 2 * s.blocks ≤ length out.old }
    ensures out_after { told_reply 2 peer_read result out.new
        ≡ list_piece (picker_in live rows.now words.now cells.now) i get_downloaders }
    ensures written { Written 2 result out.old out.new }
{
    let many = u64_to_usize(blocks_in_piece(words, s, i));
    let Some(k) = find(rows, live, i) else {
        no_peers(many, out);
        return many;
    };
    let place = u32_to_usize(row(rows, k).info_idx);
    peers_at(words, cells, s, place, many, out);
    many
}
