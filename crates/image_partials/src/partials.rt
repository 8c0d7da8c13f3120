// All partials: the pieces are walked, and one that is not Open has its partial next.
ghost use Rattle.std.specs.Prelude.{◌≡◌, ◌≤◌, ◌<◌, length};
ghost use Rattle.model.specs.Bep3.{num_pieces};
ghost use Rattle.image_pieces.specs.Heads.{Headed};
ghost use Rattle.image_partials.specs.Partials.{StatesStand, Stepped, PartialsRead};

use crate::partial::read_whole;
use geometry::blocks_at;
use image_bytes::read1;
use image_pieces::Head;
use types::{u64_to_usize, usize_to_u64};

// The place of the next record, and how many partials stand before it.
#[derive(Drop)]
pub struct Walk {
    pub at: usize,
    pub many: u64,
}

// Piece i: where it is not Open, its partial comes next.
fn pass_piece(bytes: &[u8], head: Head, n: usize, i: usize, w: Walk) -> Result<Walk, usize>
    requires headed { (Headed head bytes.now) × (StatesStand n bytes.now) }
    requires n_value { (n ≡ num_pieces head.total head.size) × (i < n) }
    requires at_in_bounds { (w.at ≤ length bytes.now) × (w.many ≤ i) }
    ensures { Stepped head i w bytes.now result }
{
    let place = 24 + 10 * i;
    let state = read1(bytes, place + 3);
    if state == 4 {
        return Ok(w);
    }
    let priority = read1(bytes, place + 4);
    let number = usize_to_u64(i);
    let many = u64_to_usize(blocks_at(head.total, head.size, number));
    let at = read_whole(bytes, w.at, number, w.many, many, state, priority)?;
    Ok(Walk {
        at: at,
        many: w.many + 1,
    })
}

// The partials of n pieces that were judged before. Answers the place behind them, or as the error that of the record at fault.
pub fn read_partials(bytes: &[u8], head: Head, n: usize) -> Result<usize, usize>
    requires headed { (Headed head bytes.now) × (StatesStand n bytes.now) }
    requires n_value { n ≡ num_pieces head.total head.size }
    ensures { PartialsRead head n bytes.now result }
{
    let mut w = Walk {
        at: 24 + 10 * n,
        many: 0,
    };
    for i in 0..n {
        w = pass_piece(bytes, head, n, i, w)?;
    }
    Ok(w.at)
}
