// A piece, a place, and a piece's priority.
ghost use Rattle.std.specs.Prelude.{◌≡◌};
ghost use Rattle.export_arguments.specs.Arguments.{piece_of, priority_of};

use picker_flags::PiecePriority;
use types::{DownloadPriority, PieceIndex};

#[repr(C)]
#[derive(Drop)]
pub struct PriorityOf {
    pub piece: i32,
    pub priority: u8,
}

pub fn piece(x: i32) -> PieceIndex
    ensures { result ≡ piece_of x }
{
    PieceIndex(x)
}

pub fn place(x: i32) -> i32
    ensures { result ≡ x }
{
    x
}

pub fn priority_of(x: PriorityOf) -> PiecePriority
    ensures { result ≡ priority_of x }
{
    PiecePriority {
        piece: PieceIndex(x.piece),
        priority: DownloadPriority(x.priority),
    }
}
