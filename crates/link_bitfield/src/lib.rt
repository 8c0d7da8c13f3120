// The crates `bitfield` and `bitfield_writes` for callers in C and Rust: numbers, flags and slices. Only for comparison with another
// implementation. An answer on a buffer is 0 for done, 1 for too little data and 2 for too little room.
#![tactic(auto)]

ghost use Rattle.std.specs.Prelude.{◌≡◌, true, false, eqb, length, take, is_some, unwrap_or};
ghost use Rattle.model.specs.Bep3.{parts_of, bitfield_bytes, bit_at, none_set};
ghost use Rattle.bitfield.specs.Bitfield.{get_bit, count_bits, all_set, first_set, last_clear, next_bit};
ghost use Rattle.bitfield_writes.specs.Writing.{put_bit, filled, grown, room_for, room_from};
ghost use Rattle.link_bitfield.specs.Codes.{code_of, Coded, bit_given, next_place};

use bitfield_writes::StoreError;

fn code(answer: Result<(), StoreError>) -> u8
    ensures { result ≡ code_of answer }
{
    match answer {
        Ok(()) => 0,
        Err(StoreError::DataShort) => 1,
        Err(StoreError::TooShort) => 2,
    }
}

// Whether a search found something; `at` is then its number.
fn tell(found: Option<usize>, at: &mut usize) -> bool
    ensures value { result ≡ is_some found }
    ensures at_after { at.new ≡ unwrap_or found at.old }
{
    if let Some(i) = found {
        *at = i;
    }
    found.is_some()
}

#[unsafe(no_mangle)]
#[tactic(auto, using(crate::proofs::CodeLaws::coded))]
pub extern "C" fn bf_with_size(buf: &mut [u8], bits: usize) -> u8
    ensures { Coded (room_for bits buf.old) (filled bits (λ i. false) buf.old) buf.old result buf.new }
{
    code(bitfield_writes::with_size(buf, bits))
}

#[unsafe(no_mangle)]
#[tactic(auto, using(crate::proofs::CodeLaws::coded))]
pub extern "C" fn bf_with_value(buf: &mut [u8], bits: usize, val: bool) -> u8
    ensures { Coded (room_for bits buf.old) (filled bits (λ i. val) buf.old) buf.old result buf.new }
{
    code(bitfield_writes::with_value(buf, bits, val))
}

#[unsafe(no_mangle)]
#[tactic(auto, using(crate::proofs::CodeLaws::coded))]
pub extern "C" fn bf_from_bytes(buf: &mut [u8], src: &[u8], bits: usize) -> u8
    ensures { Coded (room_from bits src.now buf.old) (filled bits (bit_at src.now) buf.old) buf.old result buf.new }
{
    code(bitfield_writes::from_bytes(buf, src, bits))
}

#[unsafe(no_mangle)]
#[tactic(auto, using(crate::proofs::CodeLaws::coded))]
pub extern "C" fn bf_assign(buf: &mut [u8], src: &[u8], bits: usize) -> u8
    ensures { Coded (room_from bits src.now buf.old) (filled bits (bit_at src.now) buf.old) buf.old result buf.new }
{
    code(bitfield_writes::assign(buf, src, bits))
}

#[unsafe(no_mangle)]
pub extern "C" fn bf_get_bit(bytes: &[u8], bits: usize, index: usize) -> bool
    ensures { result ≡ get_bit bytes.now bits index }
{
    bitfield::get_bit(bytes, bits, index)
}

#[unsafe(no_mangle)]
pub extern "C" fn bf_set_bit(buf: &mut [u8], bits: usize, index: usize)
    ensures { buf.new ≡ put_bit bits index true buf.old }
{
    bitfield_writes::set_bit(buf, bits, index);
}

#[unsafe(no_mangle)]
pub extern "C" fn bf_clear_bit(buf: &mut [u8], bits: usize, index: usize)
    ensures { buf.new ≡ put_bit bits index false buf.old }
{
    bitfield_writes::clear_bit(buf, bits, index);
}

#[unsafe(no_mangle)]
pub extern "C" fn bf_all_set(bytes: &[u8], bits: usize) -> bool
    ensures { result ≡ all_set bytes.now bits }
{
    bitfield::all_set(bytes, bits)
}

#[unsafe(no_mangle)]
pub extern "C" fn bf_none_set(bytes: &[u8], bits: usize) -> bool
    ensures { result ≡ none_set bytes.now 0 bits }
{
    bitfield::none_set(bytes, bits)
}

#[unsafe(no_mangle)]
pub extern "C" fn bf_size(bits: usize) -> usize
    ensures { result ≡ bits }
{
    bitfield::size(bits)
}

#[unsafe(no_mangle)]
pub extern "C" fn bf_num_words(bits: usize) -> usize
    ensures { result ≡ parts_of bits 32 }
{
    bitfield::num_words(bits)
}

#[unsafe(no_mangle)]
pub extern "C" fn bf_num_bytes(bits: usize) -> usize
    ensures { result ≡ bitfield_bytes bits }
{
    bitfield::num_bytes(bits)
}

#[unsafe(no_mangle)]
pub extern "C" fn bf_is_empty(bits: usize) -> bool
    ensures { result ≡ eqb bits 0 }
{
    bitfield::is_empty(bits)
}

// How many bytes `bytes` hands out.
#[unsafe(no_mangle)]
pub extern "C" fn bf_bytes_len(buf: &[u8], bits: usize) -> usize
    ensures { result ≡ length (take (bitfield_bytes bits) buf.now) }
{
    bitfield::bytes(buf, bits).len()
}

#[unsafe(no_mangle)]
pub extern "C" fn bf_count(bytes: &[u8], bits: usize) -> usize
    ensures { result ≡ count_bits bytes.now bits }
{
    bitfield::count(bytes, bits)
}

// Whether there is one; `at` is then its number.
#[unsafe(no_mangle)]
pub extern "C" fn bf_find_first_set(bytes: &[u8], bits: usize, at: &mut usize) -> bool
    ensures value { result ≡ is_some (first_set bytes.now bits) }
    ensures at_after { at.new ≡ unwrap_or (first_set bytes.now bits) at.old }
{
    tell(bitfield::find_first_set(bytes, bits), at)
}

// Whether there is one; `at` is then its number.
#[unsafe(no_mangle)]
pub extern "C" fn bf_find_last_clear(bytes: &[u8], bits: usize, at: &mut usize) -> bool
    ensures value { result ≡ is_some (last_clear bytes.now bits) }
    ensures at_after { at.new ≡ unwrap_or (last_clear bytes.now bits) at.old }
{
    tell(bitfield::find_last_clear(bytes, bits), at)
}

#[unsafe(no_mangle)]
pub extern "C" fn bf_set_all(buf: &mut [u8], bits: usize)
    ensures { buf.new ≡ filled bits (λ i. true) buf.old }
{
    bitfield_writes::set_all(buf, bits);
}

#[unsafe(no_mangle)]
pub extern "C" fn bf_clear_all(buf: &mut [u8], bits: usize)
    ensures { buf.new ≡ filled bits (λ i. false) buf.old }
{
    bitfield_writes::clear_all(buf, bits);
}

#[unsafe(no_mangle)]
#[tactic(auto, using(crate::proofs::CodeLaws::coded))]
pub extern "C" fn bf_resize(buf: &mut [u8], old: usize, bits: usize) -> u8
    ensures { Coded (room_for bits buf.old) (filled bits (grown buf.old old false) buf.old) buf.old result buf.new }
{
    code(bitfield_writes::resize(buf, old, bits))
}

#[unsafe(no_mangle)]
#[tactic(auto, using(crate::proofs::CodeLaws::coded))]
pub extern "C" fn bf_resize_with(buf: &mut [u8], old: usize, bits: usize, val: bool) -> u8
    ensures { Coded (room_for bits buf.old) (filled bits (grown buf.old old val) buf.old) buf.old result buf.new }
{
    code(bitfield_writes::resize_with(buf, old, bits, val))
}

// Whether there is a bit at `index`; `bit` is then the bit and `next` the next place.
#[unsafe(no_mangle)]
pub extern "C" fn bf_next(
    bytes: &[u8],
    bits: usize,
    index: usize,
    bit: &mut bool,
    next: &mut usize,
) -> bool
    ensures value { result ≡ is_some (next_bit bytes.now bits index) }
    ensures bit_after { bit.new ≡ bit_given bit.old (next_bit bytes.now bits index) }
    ensures next_after { next.new ≡ next_place next.old (next_bit bytes.now bits index) }
{
    match bitfield::next(bytes, bits, index) {
        Some(step) => {
            *bit = step.bit;
            *next = step.next;
            true
        }
        None => false,
    }
}
