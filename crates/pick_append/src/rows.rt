// Places gathered in a local row.
ghost use Rattle.std.specs.Prelude.{◌≡◌, ◌+◌, ◌<◌, set};
ghost use Rattle.model.specs.Lists.{bit};

// Place k behind the n that the row has, where it is kept: how many it has then. There is no branch: a place that is not kept is written
// over by the next one.
pub fn push(row: &mut [u16; 512], n: usize, k: usize, keep: bool) -> usize
    requires { (n < 512) × (k < 512) }
    ensures row_after { row.new ≡ set row.old n k }
    ensures value { result ≡ n + bit keep }
{
    row[n] = k as u16;
    if keep { n + 1 } else { n }
}
