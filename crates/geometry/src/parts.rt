// A length cut into parts of one length, the last one shorter where the length is no multiple.
ghost use Rattle.std.specs.Prelude.{◌≡◌, ◌<◌};
ghost use Rattle.model.specs.Bep3.{parts_of, part_length};
ghost use Rattle.model.specs.Lists.{least};

// How many parts: the quotient rounded up, without a sum that could wrap; none where one of the lengths is 0.
pub fn parts_of(whole: u64, part: u64) -> u64
    ensures { result ≡ parts_of whole part }
{
    if whole == 0 {
        return 0;
    }
    if part == 0 {
        return 0;
    }
    (whole - 1) / part + 1
}

// The length of part k.
pub fn part_length(whole: u64, part: u64, k: u64) -> u64
    requires { k < parts_of whole part }
    ensures { result ≡ part_length whole part k }
{
    part.min(whole - k * part)
}

// The lesser of two numbers.
pub fn lesser(x: u64, y: u64) -> u64
    ensures { result ≡ least x y }
{
    x.min(y)
}
