// State, peers and a peer or none for each block: four words a record, the last two being 1 and the peer, or 0 and 0 for none.
ghost use Rattle.std.specs.Prelude.{◌≡◌, ◌*◌, ◌≤◌, ◌<◌, length};
ghost use Rattle.model.specs.ask.Questions.{list_piece, block_info, blocks_for_piece};
ghost use Rattle.memory_layout.specs.Decode.{block_held};
ghost use Rattle.memory_layout.specs.Bounds.{Spans};
ghost use Rattle.memory_rows.specs.Lookup.{picker_in};
ghost use Rattle.ask_picker.specs.Asked.{Asked};
ghost use Rattle.ask_records.specs.Records.{block_read, Lists, Written};
ghost use Rattle.ask_records.specs.Answers.{records_in, blocks_reply};

use crate::words::{bit_of, peer_or_zero, put_words};
use ask_piece::blocks_in_piece;
use memory_blocks::get_block;
use memory_layout::Shape;
use memory_records::row;
use memory_rows::find;
use types::{u16_to_u64, u32_to_usize, u64_to_usize};

// Those of the first blocks of place p.
fn blocks_at(words: &[u64], cells: &[u16], s: Shape, p: usize, many: usize, out: &mut [u64])
    requires spans { Spans s words.now cells.now }
    requires p_lt_places { (p < s.places) × (many ≤ s.blocks) }
    requires many_in_bounds { 4 * many ≤ length out.old }
    ensures { Lists 4 block_read (λ j. block_info (block_held words.now cells.now s.pieces s.blocks p j))
        many out.old out.new }
{
    for j in 0..many {
        let x = get_block(words, cells, s, p, j);
        let block = [
            u16_to_u64(x.state),
            u16_to_u64(x.num_peers),
            bit_of(x.has_peer),
            peer_or_zero(x.has_peer, x.peer),
        ];
        put_words(out, 4 * j, &block);
    }
}

pub fn blocks_for_piece(
    words: &[u64],
    cells: &[u16],
    rows: &[u32],
    live: usize,
    s: Shape,
    i: usize,
    out: &mut [u64],
) -> Option<usize>
    requires asked { Asked s live rows.now words.now cells.now }
    requires i_lt_pieces { i < s.pieces }
    requires blocks_in_bounds { 4 * s.blocks ≤ length out.old }
    ensures result_after { blocks_reply out.new result
        ≡ list_piece (picker_in live rows.now words.now cells.now) i blocks_for_piece }
    ensures written { Written 4 (records_in result) out.old out.new }
{
    let many = u64_to_usize(blocks_in_piece(words, s, i));
    let k = find(rows, live, i)?;
    let place = u32_to_usize(row(rows, k).info_idx);
    blocks_at(words, cells, s, place, many, out);
    Some(many)
}
