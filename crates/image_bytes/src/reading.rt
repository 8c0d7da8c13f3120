// The number in 1, 2, 4 or 8 bytes from a place on.
ghost use Rattle.std.specs.Prelude.{◌+◌, ◌≤◌, length};
ghost use Rattle.image_bytes.specs.Put.{FieldRead};

pub fn read1(bytes: &[u8], at: usize) -> u64
    requires { at + 1 ≤ length bytes.now }
    ensures { FieldRead at 1 bytes.now result }
{
    u64::from(bytes[at])
}

pub fn read2(bytes: &[u8], at: usize) -> u64
    requires { at + 2 ≤ length bytes.now }
    ensures { FieldRead at 2 bytes.now result }
{
    read1(bytes, at) * 256 + read1(bytes, at + 1)
}

pub fn read4(bytes: &[u8], at: usize) -> u64
    requires { at + 4 ≤ length bytes.now }
    ensures { FieldRead at 4 bytes.now result }
{
    read2(bytes, at) * 65536 + read2(bytes, at + 2)
}

// Each two bytes by their own weight: so the compiler finds one number of eight bytes, and loads it at once.
pub fn read8(bytes: &[u8], at: usize) -> u64
    requires { at + 8 ≤ length bytes.now }
    ensures { FieldRead at 8 bytes.now result }
{
    let high = read2(bytes, at) * 281474976710656 + read2(bytes, at + 2) * 4294967296;
    let low = read2(bytes, at + 4) * 65536 + read2(bytes, at + 6);
    high + low
}
