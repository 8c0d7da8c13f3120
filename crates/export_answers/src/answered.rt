// Answers of one number at most.
ghost use Rattle.std.specs.Prelude.{◌≡◌};
ghost use Rattle.export_answers.specs.Answers.{refused_answer, valued, of_flag, of_placed, of_flag_of, of_number_of, of_peer_of};

use crate::refusals::{number, place};
use ask_block::PeerOf;
use ask_places::Placed;
use types::Refusal;

// `refusal` is 0 where the call was not refused, else the table's number, and `place` the place of the fault with 13. `kind` is 0 for
// nothing, 1 for a number, 2 for a stale list, 3 for a block without a peer; `value` is the number.
#[repr(C)]
#[derive(Drop)]
pub struct Answered {
    pub refusal: u32,
    pub kind: u32,
    pub place: usize,
    pub value: u64,
}

pub fn refused(why: Refusal) -> Answered
    ensures { result ≡ refused_answer why }
{
    Answered {
        refusal: number(why),
        kind: 0,
        place: place(why),
        value: 0,
    }
}

pub fn nothing() -> Answered
    ensures { result ≡ valued 0 0 }
{
    Answered {
        refusal: 0,
        kind: 0,
        place: 0,
        value: 0,
    }
}

pub fn of_u64(n: u64) -> Answered
    ensures { result ≡ valued 1 n }
{
    Answered {
        refusal: 0,
        kind: 1,
        place: 0,
        value: n,
    }
}

pub fn of_usize(n: usize) -> Answered
    ensures { result ≡ valued 1 n }
{
    of_u64(n as u64)
}

// A truth value, as 1 for true.
pub fn of_bool(flag: bool) -> Answered
    ensures { result ≡ of_flag flag }
{
    of_u64(u64::from(flag))
}

pub fn of_placed(x: Placed) -> Answered
    ensures { result ≡ of_placed x }
{
    match x {
        Placed::Number(n) => of_u64(n),
        Placed::Nothing => nothing(),
        Placed::Stale => Answered {
            refusal: 0,
            kind: 2,
            place: 0,
            value: 0,
        },
    }
}

pub fn of_flag_of(x: Option<bool>) -> Answered
    ensures { result ≡ of_flag_of x }
{
    match x {
        Some(flag) => of_bool(flag),
        None => nothing(),
    }
}

pub fn of_number_of(x: Option<u16>) -> Answered
    ensures { result ≡ of_number_of x }
{
    match x {
        Some(n) => of_u64(u64::from(n)),
        None => nothing(),
    }
}

pub fn of_peer_of(x: PeerOf) -> Answered
    ensures { result ≡ of_peer_of x }
{
    match x {
        PeerOf::Peer(peer) => of_u64(peer),
        PeerOf::NoPeer => Answered {
            refusal: 0,
            kind: 3,
            place: 0,
            value: 0,
        },
        PeerOf::Nothing => nothing(),
    }
}
