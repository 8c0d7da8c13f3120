// A refusal in two numbers.
ghost use Rattle.std.specs.Prelude.{◌≡◌};
ghost use Rattle.types.specs.Refusal.{refusal_number};
ghost use Rattle.export_answers.specs.Refusals.{refusal_place};

use types::Refusal;

// The table's number.
pub fn number(why: Refusal) -> u32
    ensures { result ≡ refusal_number why }
{
    match why {
        Refusal::Geometry => 1,
        Refusal::ShortMemory => 2,
        Refusal::IllFormedMemory => 3,
        Refusal::FewDraws => 4,
        Refusal::OutOfRange => 5,
        Refusal::TooManyPeers => 6,
        Refusal::NoPeerToTake => 7,
        Refusal::HavePiece => 8,
        Refusal::NotWriting => 9,
        Refusal::TooManyPartials => 10,
        Refusal::PickArguments => 11,
        Refusal::ShortOutput => 12,
        Refusal::IllFormedImage(_) => 13,
    }
}

// The place of the first fault, with 13; 0 with any other.
pub fn place(why: Refusal) -> usize
    ensures { result ≡ refusal_place why }
{
    match why {
        Refusal::Geometry => 0,
        Refusal::ShortMemory => 0,
        Refusal::IllFormedMemory => 0,
        Refusal::FewDraws => 0,
        Refusal::OutOfRange => 0,
        Refusal::TooManyPeers => 0,
        Refusal::NoPeerToTake => 0,
        Refusal::HavePiece => 0,
        Refusal::NotWriting => 0,
        Refusal::TooManyPartials => 0,
        Refusal::PickArguments => 0,
        Refusal::ShortOutput => 0,
        Refusal::IllFormedImage(k) => k,
    }
}
