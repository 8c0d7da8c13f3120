// Bitfields in lent bytes, written: filled, one bit or all, and resized. Bits past the end of the bytes are not written, and the spare
// bits behind a fill become 0. No public function has a precondition.
#![tactic(auto)]

ghost use Rattle.std.specs.Prelude.{◌≡◌, ◌+◌, ◌*◌, ◌/◌, ◌≤◌, true, false, length};
ghost use Rattle.model.specs.Bep3.{bit_at};
ghost use Rattle.bitfield_writes.specs.Writing.{digits, with_mask, put_run, put_bit, filled, grown, room_for, room_from, Did};

use bitfield::num_bytes;

// A byte with every bit set, and with its first one alone.
const ALL_BITS: u8 = 255;

const HIGH_BIT: u8 = 128;

// Why a call on a buffer writes nothing.
#[derive(Clone, Copy, PartialEq, Eq)]
pub enum StoreError {
    // The data has fewer bits.
    DataShort,
    // The buffer has no room for the bits.
    TooShort,
}

// ---- the buffer filled

// `bits` bits, all unset.
pub fn with_size(buf: &mut [u8], bits: usize) -> Result<(), StoreError>
    ensures { Did (room_for bits buf.old) (filled bits (λ i. false) buf.old) buf.old result buf.new }
{
    with_value(buf, bits, false)
}

// `bits` bits, all `val`.
pub fn with_value(buf: &mut [u8], bits: usize, val: bool) -> Result<(), StoreError>
    ensures { Did (room_for bits buf.old) (filled bits (λ i. val) buf.old) buf.old result buf.new }
{
    if buf.len() < num_bytes(bits) {
        return Err(StoreError::TooShort);
    }
    fill_to(buf, 0, bits, val);
    Ok(())
}

// `bits` bits of `src`.
pub fn from_bytes(buf: &mut [u8], src: &[u8], bits: usize) -> Result<(), StoreError>
    ensures { Did (room_from bits src.now buf.old) (filled bits (bit_at src.now) buf.old) buf.old result buf.new }
{
    let n = num_bytes(bits);
    if src.len() < n {
        return Err(StoreError::DataShort);
    }
    if buf.len() < n {
        return Err(StoreError::TooShort);
    }
    copy_bytes(buf, src, n);
    put_run(buf, bits, n, false);
    Ok(())
}

// The contents replaced by `bits` bits of `src`.
pub fn assign(buf: &mut [u8], src: &[u8], bits: usize) -> Result<(), StoreError>
    ensures { Did (room_from bits src.now buf.old) (filled bits (bit_at src.now) buf.old) buf.old result buf.new }
{
    from_bytes(buf, src, bits)
}

// ---- one bit

// Bit `index` becomes 1; nothing changes where it is not below `bits`.
pub fn set_bit(buf: &mut [u8], bits: usize, index: usize)
    ensures { buf.new ≡ put_bit bits index true buf.old }
{
    put_bit(buf, bits, index, true);
}

// Bit `index` becomes 0; nothing changes where it is not below `bits`.
pub fn clear_bit(buf: &mut [u8], bits: usize, index: usize)
    ensures { buf.new ≡ put_bit bits index false buf.old }
{
    put_bit(buf, bits, index, false);
}

// ---- all the bits

// Every bit becomes 1.
pub fn set_all(buf: &mut [u8], bits: usize)
    ensures { buf.new ≡ filled bits (λ i. true) buf.old }
{
    fill_to(buf, 0, bits, true);
}

// Every bit becomes 0.
pub fn clear_all(buf: &mut [u8], bits: usize)
    ensures { buf.new ≡ filled bits (λ i. false) buf.old }
{
    fill_to(buf, 0, bits, false);
}

// ---- another number of bits

// From `old` bits to `bits`; new bits are 0.
pub fn resize(buf: &mut [u8], old: usize, bits: usize) -> Result<(), StoreError>
    ensures { Did (room_for bits buf.old) (filled bits (grown buf.old old false) buf.old) buf.old result buf.new }
{
    resize_with(buf, old, bits, false)
}

// From `old` bits to `bits`; new bits are `val`.
pub fn resize_with(buf: &mut [u8], old: usize, bits: usize, val: bool) -> Result<(), StoreError>
    ensures { Did (room_for bits buf.old) (filled bits (grown buf.old old val) buf.old) buf.old result buf.new }
{
    if buf.len() < num_bytes(bits) {
        return Err(StoreError::TooShort);
    }
    fill_to(buf, old, bits, val);
    Ok(())
}

// ---- what the calls above are made of

// Byte b with the bits of m made v: set, and then turned over where v is 0.
fn masked(b: u8, m: u8, v: bool) -> u8
    ensures { result ≡ with_mask b m v }
{
    if v { b | m } else { (b | m) ^ m }
}

// Eight bits v.
fn whole(v: bool) -> u8
    ensures { result ≡ digits (λ i. v) 8 }
{
    if v { ALL_BITS } else { 0 }
}

// Bit `index` becomes v, where it is below `bits`.
fn put_bit(buf: &mut [u8], bits: usize, index: usize, v: bool)
    ensures { buf.new ≡ put_bit bits index v buf.old }
{
    let at = index / 8;
    if bits <= index {
        return;
    }
    if buf.len() <= at {
        return;
    }
    buf[at] = masked(buf[at], HIGH_BIT >> (index % 8), v);
}

// The bits from number `from` to the end of its byte become v.
fn fill_rest(buf: &mut [u8], from: usize, v: bool)
    ensures { buf.new ≡ put_run from (8 * (from / 8 + 1)) (λ i. v) buf.old }
{
    let at = from / 8;
    if buf.len() <= at {
        return;
    }
    buf[at] = masked(buf[at], ALL_BITS >> (from % 8), v);
}

// The bits of the bytes from number `from` up to `to` become v.
fn fill_bytes(buf: &mut [u8], from: usize, to: usize, v: bool)
    ensures { buf.new ≡ put_run (8 * from) (8 * to) (λ i. v) buf.old }
{
    let w = whole(v);
    let end = to.min(buf.len());
    for j in from..end {
        buf[j] = w;
    }
}

// The bits from number `from` to the end of byte end - 1 become v.
fn put_run(buf: &mut [u8], from: usize, end: usize, v: bool)
    ensures { buf.new ≡ put_run from (8 * end) (λ i. v) buf.old }
{
    let at = from / 8;
    if end <= at {
        return;
    }
    fill_rest(buf, from, v);
    fill_bytes(buf, at + 1, end, v);
}

// The bits from number `from` up to `bits` become v, and the spare bits 0.
fn fill_to(buf: &mut [u8], from: usize, bits: usize, v: bool)
    ensures { buf.new ≡ filled bits (grown buf.old from v) buf.old }
{
    let n = num_bytes(bits);
    put_run(buf, from, n, v);
    put_run(buf, bits, n, false);
}

// The first n bytes become those of `src`, as far as the buffer goes.
fn copy_bytes(buf: &mut [u8], src: &[u8], n: usize)
    requires { n ≤ length src.now }
    ensures { buf.new ≡ put_run 0 (8 * n) (bit_at src.now) buf.old }
{
    let end = n.min(buf.len());
    for j in 0..end {
        buf[j] = src[j];
    }
}
