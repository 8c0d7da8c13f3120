// Public answers of one number at most.
ghost use Rattle.std.specs.Prelude.{◌≡◌};
ghost use Rattle.export_answers.specs.Replies.{of_number, of_flag, of_place, of_partial_flag, of_block_number, of_peer, of_list};
ghost use Rattle.export_answers.specs.Replies.{of_making, of_image};

use crate::answered::{
    Answered, nothing, of_bool, of_flag_of, of_number_of, of_peer_of, of_placed, of_u64, of_usize,
    refused,
};
use ask_block::PeerOf;
use ask_places::Placed;
use types::Refusal;

// A number.
pub fn of_number(o: Result<u64, Refusal>) -> Answered
    ensures { result ≡ of_number o }
{
    match o {
        Err(why) => refused(why),
        Ok(n) => of_u64(n),
    }
}

// True or false.
pub fn of_flag(o: Result<bool, Refusal>) -> Answered
    ensures { result ≡ of_flag o }
{
    match o {
        Err(why) => refused(why),
        Ok(flag) => of_bool(flag),
    }
}

// What stands at a place.
pub fn of_place(o: Result<Placed, Refusal>) -> Answered
    ensures { result ≡ of_place o }
{
    match o {
        Err(why) => refused(why),
        Ok(x) => of_placed(x),
    }
}

// A flag of a partial, or nothing.
pub fn of_partial_flag(o: Result<Option<bool>, Refusal>) -> Answered
    ensures { result ≡ of_partial_flag o }
{
    match o {
        Err(why) => refused(why),
        Ok(x) => of_flag_of(x),
    }
}

// A number of a block, or nothing.
pub fn of_block_number(o: Result<Option<u16>, Refusal>) -> Answered
    ensures { result ≡ of_block_number o }
{
    match o {
        Err(why) => refused(why),
        Ok(x) => of_number_of(x),
    }
}

// A peer, none, or nothing.
pub fn of_peer(o: Result<PeerOf, Refusal>) -> Answered
    ensures { result ≡ of_peer o }
{
    match o {
        Err(why) => refused(why),
        Ok(x) => of_peer_of(x),
    }
}

// Records written, or nothing.
pub fn of_list(o: Result<Option<usize>, Refusal>) -> Answered
    ensures { result ≡ of_list o }
{
    match o {
        Err(why) => refused(why),
        Ok(Some(n)) => of_usize(n),
        Ok(None) => nothing(),
    }
}

// A picker made.
pub fn of_making(o: Result<(), Refusal>) -> Answered
    ensures { result ≡ of_making o }
{
    match o {
        Err(why) => refused(why),
        Ok(()) => nothing(),
    }
}

// Bytes written.
pub fn of_image(o: Result<usize, Refusal>) -> Answered
    ensures { result ≡ of_image o }
{
    match o {
        Err(why) => refused(why),
        Ok(n) => of_usize(n),
    }
}
