// Why a number is no case of an enum.

// A number that no case has.
#[derive(Clone, Copy, PartialEq, Eq)]
pub struct UnknownNumber {
    pub number: u8,
}
