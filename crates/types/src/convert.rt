// A number in another width: one function for each pair of widths. All keep the number; those to fewer bits ask that it has room there,
// and a negative one becomes one that is past all that there can be. A usize has 64 bits.
ghost use Rattle.std.specs.Prelude.{◌≡◌, ◌<◌};
ghost use Rattle.types.specs.Piece.{number_of};

// What stands for a negative number.
const PAST_ALL: usize = 9223372036854775808;

pub fn i32_to_usize(x: i32) -> usize
    ensures { result ≡ number_of x }
{
    if x < 0 { PAST_ALL } else { x as usize }
}

pub fn i64_to_u64(x: i64) -> u64
    ensures { result ≡ number_of x }
{
    if x < 0 { 9223372036854775808 } else { x as u64 }
}

pub fn u16_to_usize(x: u16) -> usize
    ensures { result ≡ x }
{
    x as usize
}

pub fn u16_to_u64(x: u16) -> u64
    ensures { result ≡ x }
{
    x as u64
}

pub fn u32_to_usize(x: u32) -> usize
    ensures { result ≡ x }
{
    x as usize
}

pub fn u64_to_usize(x: u64) -> usize
    ensures { result ≡ x }
{
    x as usize
}

pub fn usize_to_u64(x: usize) -> u64
    ensures { result ≡ x }
{
    x as u64
}

pub fn u64_to_u16(x: u64) -> u16
    requires { x < 65536 }
    ensures { result ≡ x }
{
    x as u16
}

pub fn usize_to_u32(x: usize) -> u32
    requires { x < 4294967296 }
    ensures { result ≡ x }
{
    x as u32
}
