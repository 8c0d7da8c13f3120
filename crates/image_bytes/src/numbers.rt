// A number put in 1, 2, 4 or 8 bytes from a place on. A number that has more is cut to them, as in the definition.
ghost use Rattle.std.specs.Prelude.{◌≡◌, ◌+◌, ◌%◌, ◌≤◌, length};
ghost use Rattle.model.specs.image.Image.{bytes_of};
ghost use Rattle.image_bytes.specs.Put.{Put};

fn low_byte(n: u64) -> u8
    ensures { result ≡ n % 256 }
{
    (n % 256) as u8
}

pub fn put1(bytes: &mut [u8], at: usize, n: u64)
    requires { at + 1 ≤ length bytes.old }
    ensures { Put at (bytes_of 1 n) bytes.old bytes.new }
{
    bytes[at] = low_byte(n);
}

pub fn put2(bytes: &mut [u8], at: usize, n: u64)
    requires { at + 2 ≤ length bytes.old }
    ensures { Put at (bytes_of 2 n) bytes.old bytes.new }
{
    put1(bytes, at, n / 256);
    put1(bytes, at + 1, n);
}

pub fn put4(bytes: &mut [u8], at: usize, n: u64)
    requires { at + 4 ≤ length bytes.old }
    ensures { Put at (bytes_of 4 n) bytes.old bytes.new }
{
    put2(bytes, at, n / 65536);
    put2(bytes, at + 2, n);
}

pub fn put8(bytes: &mut [u8], at: usize, n: u64)
    requires { at + 8 ≤ length bytes.old }
    ensures { Put at (bytes_of 8 n) bytes.old bytes.new }
{
    put4(bytes, at, n / 4294967296);
    put4(bytes, at + 4, n);
}
