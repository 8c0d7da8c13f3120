// Bitfields in lent bytes, read: bit i is bit 7 - i % 8 of byte i / 8, and `bits` says how many bits count.
// Bits past the end of the bytes read as unset. No function has a precondition.
#![tactic(auto)]

ghost use Rattle.std.specs.Prelude.{◌≡◌, ◌+◌, ◌*◌, ◌/◌, min, true, false, eqb, take};
ghost use Rattle.model.specs.Bep3.{parts_of, bitfield_bytes, bit_at, none_set};
ghost use Rattle.bitfield.specs.Bitfield.{get_bit, count_bits, all_set, first_set, last_clear, next_bit};

// What an iterator gives: a bit and the next place.
#[derive(Clone, Copy, PartialEq, Eq)]
pub struct Step {
    pub bit: bool,
    pub next: usize,
}

// ---- one bit

// Bit `index`; unset where it is not below `bits`.
#[tactic(auto, unfolding(crate::specs::Bitfield::get_bit))]
pub fn get_bit(bytes: &[u8], bits: usize, index: usize) -> bool
    ensures { result ≡ get_bit bytes.now bits index }
{
    index < bits && bit_at(bytes, index)
}

// ---- all the bits

// Every bit is set, and there is one.
#[tactic(auto, using(crate::proofs::ScanLaws::every_last), unfolding(crate::specs::Bitfield::all_set))]
pub fn all_set(bytes: &[u8], bits: usize) -> bool
    ensures { result ≡ all_set bytes.now bits }
{
    bits != 0 && find_last_clear(bytes, bits).is_none()
}

// No bit is set.
#[tactic(auto, using(crate::proofs::ScanLaws::none_first), unfolding(crate::specs::Bitfield::first_set))]
pub fn none_set(bytes: &[u8], bits: usize) -> bool
    ensures { result ≡ none_set bytes.now 0 bits }
{
    find_first_set(bytes, bits).is_none()
}

// The number of bits.
pub fn size(bits: usize) -> usize
    ensures { result ≡ bits }
{
    bits
}

// The number of 32-bit words that hold the bits.
#[tactic(auto, unfolding(model::specs::Bep3::parts_of))]
pub fn num_words(bits: usize) -> usize
    ensures { result ≡ parts_of bits 32 }
{
    bits.div_ceil(32)
}

// The number of bytes that hold the bits.
#[tactic(auto, unfolding(model::specs::Bep3::parts_of, model::specs::Bep3::bitfield_bytes))]
pub fn num_bytes(bits: usize) -> usize
    ensures { result ≡ bitfield_bytes bits }
{
    bits.div_ceil(8)
}

// There are no bits.
pub fn is_empty(bits: usize) -> bool
    ensures { result ≡ eqb bits 0 }
{
    bits == 0
}

// The bytes that hold the bits, as far as there are any.
pub fn bytes(buf: &[u8], bits: usize) -> &[u8]
    ensures { result.now ≡ take (bitfield_bytes bits) buf.now }
{
    let n = num_bytes(bits).min(buf.len());
    &buf[..n]
}

// The number of set bits.
pub fn count(bytes: &[u8], bits: usize) -> usize
    ensures { result ≡ count_bits bytes.now bits }
{
    let stop = held(bytes.len(), bits);
    let mut n: usize = 0;
    for i in 0..stop {
        if bit_at(bytes, i) {
            n += 1;
        }
    }
    n
}

// The first set bit.
#[tactic(auto, using(crate::proofs::ScanLaws::first_here, crate::proofs::ScanLaws::first_next, crate::proofs::ScanLaws::first_none), unfolding(crate::specs::Bitfield::first_set))]
pub fn find_first_set(bytes: &[u8], bits: usize) -> Option<usize>
    ensures { result ≡ first_set bytes.now bits }
{
    let end = held(bytes.len(), bits);
    for i in 0..end {
        if bit_at(bytes, i) {
            return Some(i);
        }
    }
    None
}

// The last unset bit.
#[tactic(auto, using(crate::proofs::ScanLaws::last_here, crate::proofs::ScanLaws::last_next), unfolding(crate::specs::Bitfield::last_clear))]
pub fn find_last_clear(bytes: &[u8], bits: usize) -> Option<usize>
    ensures { result ≡ last_clear bytes.now bits }
{
    for i in (0..bits).rev() {
        if !bit_at(bytes, i) {
            return Some(i);
        }
    }
    None
}

// ---- the iterator

// The bit at `index` and the next place, or the end.
#[tactic(auto, unfolding(crate::specs::Bitfield::next_bit))]
pub fn next(bytes: &[u8], bits: usize, index: usize) -> Option<Step>
    ensures { result ≡ next_bit bytes.now bits index }
{
    if index < bits {
        Some(Step {
            bit: bit_at(bytes, index),
            next: index + 1,
        })
    } else {
        None
    }
}

// ---- what the calls above, and those that write, are made of

// Bit i, with no count of bits.
fn bit_at(bytes: &[u8], i: usize) -> bool
    ensures { result ≡ bit_at bytes.now i }
{
    let at = i / 8;
    if bytes.len() <= at {
        return false;
    }
    (bytes[at] >> (7 - i % 8)) % 2 == 1
}

// How many of the bits lie within `len` bytes.
fn held(len: usize, bits: usize) -> usize
    ensures { result ≡ min bits (8 * len) }
{
    bits.min(len.saturating_mul(8))
}
