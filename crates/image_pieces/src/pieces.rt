// All pieces of an image: piece i stands at 24 + 10 * i.
ghost use Rattle.std.specs.Prelude.{◌≡◌, ◌+◌, ◌*◌, ◌≤◌, length};
ghost use Rattle.model.specs.Bep3.{num_pieces};
ghost use Rattle.image_pieces.specs.Heads.{Headed};
ghost use Rattle.image_pieces.specs.Pieces.{RankBy, PiecesRead};

use crate::head::Head;
use crate::piece::{Piece, read_piece};
use crate::stretch::pass_pieces;
use geometry::piece_length;
use list_rank::rank;
use types::{u64_to_u16, usize_to_u64};

// The rank of a piece with these numbers.
fn rank_of(seeds: u64, p: Piece) -> u16
    requires { (p.peer_count ≤ 1000) × (p.priority ≤ 7) }
    ensures { RankBy seeds p result }
{
    u64_to_u16(rank(seeds, p.peer_count, p.state, p.priority, p.flushed))
}

// Piece by piece from the first one on that the quick pass leaves. Answers the place behind the pieces, or as the error that of the record
// at fault.
pub fn read_pieces(bytes: &[u8], head: Head, n: usize, ranks: &mut [u16]) -> Result<usize, usize>
    requires headed { Headed head bytes.now }
    requires n_value { (n ≡ num_pieces head.total head.size) × (n ≤ length ranks.old) }
    ensures pieces_read { PiecesRead head n bytes.now ranks.new result }
    ensures ranks_len_unchanged { length ranks.new ≡ length ranks.old }
{
    for i in pass_pieces(bytes, head, n, ranks)..n {
        let at = 24 + 10 * i;
        let long = piece_length(head.total, head.size, usize_to_u64(i));
        let Some(p) = read_piece(bytes, at, head.seeds, long) else {
            return Err(at);
        };
        ranks[i] = rank_of(head.seeds, p);
    }
    Ok(24 + 10 * n)
}
