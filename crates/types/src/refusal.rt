// Why a call is refused: a case for each row of document 01's table of refusals, in its order.
ghost use Rattle.std.specs.Prelude.{◌≡◌};
ghost use Rattle.types.specs.Refusal.{refusal_number};

#[derive(Clone, Copy, PartialEq, Eq)]
pub enum Refusal {
    // The total, the piece size or the number of pieces is out of range.
    Geometry,
    // The lent memory is shorter than the geometry or the image needs.
    ShortMemory,
    // The lent memory is no well-formed picker.
    IllFormedMemory,
    // Too few draws are lent.
    FewDraws,
    // A piece, block, list place or priority is out of range.
    OutOfRange,
    // A piece's peers plus seeds, or a block's peers, would pass 1,000.
    TooManyPeers,
    // A peer or a seed is taken away where there is none.
    NoPeerToTake,
    // A piece that is flushed is marked downloading.
    HavePiece,
    // A requested block is finished without being written.
    NotWriting,
    // A 513th partial would be opened.
    TooManyPartials,
    // An argument of a pick is out of range or contradicts another.
    PickArguments,
    // Too few output places are lent to a pick.
    ShortOutput,
    // The bytes are no well-formed image; the place of the first fault.
    IllFormedImage(usize),
}

impl Refusal {
    pub fn number(self) -> u8
        ensures { result ≡ refusal_number self }
    {
        match self {
            Refusal::Geometry => 1,
            Refusal::ShortMemory => 2,
            Refusal::IllFormedMemory => 3,
            Refusal::FewDraws => 4,
            Refusal::OutOfRange => 5,
            Refusal::TooManyPeers => 6,
            Refusal::NoPeerToTake => 7,
            Refusal::HavePiece => 8,
            Refusal::NotWriting => 9,
            Refusal::TooManyPartials => 10,
            Refusal::PickArguments => 11,
            Refusal::ShortOutput => 12,
            Refusal::IllFormedImage(_) => 13,
        }
    }
}
