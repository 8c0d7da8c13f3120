// A record for each block of a piece.
ghost use Rattle.std.specs.Prelude.{◌≡◌, ◌/◌, length};
ghost use Rattle.types.specs.Piece.{number_of};
ghost use Rattle.model.specs.ask.Questions.{list_of_piece, get_downloaders, blocks_for_piece};
ghost use Rattle.picker_calls.specs.Cores.{lending};
ghost use Rattle.picker_lists.specs.Listing.{tell_peers, tell_blocks, Listed, CoreListed};

use crate::admitted::admit_piece_list;
use memory_records::{DownloadingPiece, live_records, unpack};
use types::{PieceIndex, Refusal};

fn get_downloaders_core(
    words: &[u64],
    cells: &[u16],
    rows: &[u32],
    lent: usize,
    out: &mut [u64],
    piece: PieceIndex,
) -> Result<Option<usize>, Refusal>
    requires { length rows.now ≡ 1536 }
    ensures { CoreListed 2 tell_peers words.now cells.now rows.now lent
        (list_of_piece get_downloaders (number_of piece.0) (length out.old / 2)) out.old out.new result }
{
    let mut counts = [0; 1536];
    let i = piece.number();
    let room = out.len() / 2;
    let picker = admit_piece_list(words, cells, rows, lent, &mut counts, room, i)?;
    Ok(Some(ask_records::get_downloaders(words, cells, rows, picker.live, picker.shape, i, out)))
}

// Two words a record: whether there is a peer, and the peer.
pub fn get_downloaders(
    words: &[u64],
    cells: &[u16],
    partials: &[DownloadingPiece],
    out: &mut [u64],
    piece: PieceIndex,
) -> Result<Option<usize>, Refusal>
    ensures { Listed 2 tell_peers (lending words.now cells.now partials.now)
        (list_of_piece get_downloaders (number_of piece.0) (length out.old / 2)) out.old out.new result }
{
    let mut rows = [0; 1536];
    let live = live_records(words);
    let lent = unpack(partials, live, &mut rows);
    get_downloaders_core(words, cells, &rows, lent, out, piece)
}

fn blocks_for_piece_core(
    words: &[u64],
    cells: &[u16],
    rows: &[u32],
    lent: usize,
    out: &mut [u64],
    piece: PieceIndex,
) -> Result<Option<usize>, Refusal>
    requires { length rows.now ≡ 1536 }
    ensures { CoreListed 4 tell_blocks words.now cells.now rows.now lent
        (list_of_piece blocks_for_piece (number_of piece.0) (length out.old / 4)) out.old out.new result }
{
    let mut counts = [0; 1536];
    let i = piece.number();
    let room = out.len() / 4;
    let picker = admit_piece_list(words, cells, rows, lent, &mut counts, room, i)?;
    Ok(ask_records::blocks_for_piece(words, cells, rows, picker.live, picker.shape, i, out))
}

// Four words a record: state, num_peers, whether there is a peer, and the peer. Nothing where no partial stands.
pub fn blocks_for_piece(
    words: &[u64],
    cells: &[u16],
    partials: &[DownloadingPiece],
    out: &mut [u64],
    piece: PieceIndex,
) -> Result<Option<usize>, Refusal>
    ensures { Listed 4 tell_blocks (lending words.now cells.now partials.now)
        (list_of_piece blocks_for_piece (number_of piece.0) (length out.old / 4)) out.old out.new result }
{
    let mut rows = [0; 1536];
    let live = live_records(words);
    let lent = unpack(partials, live, &mut rows);
    blocks_for_piece_core(words, cells, &rows, lent, out, piece)
}
