// Words put into a lent list.
ghost use Rattle.std.specs.Prelude.{◌≡◌, cond, ◌+◌, ◌≤◌, length};
ghost use Rattle.model.specs.Lists.{bit};
ghost use Rattle.ask_records.specs.Records.{WordsPut};

// 1 for true.
pub fn bit_of(truth: bool) -> u64
    ensures { result ≡ bit truth }
{
    u64::from(truth)
}

// The peer, or 0 where there is none: what stands in memory beside a has-peer of 0 means nothing.
pub fn peer_or_zero(has: bool, peer: u64) -> u64
    ensures { result ≡ cond has peer 0 }
{
    if has { peer } else { 0 }
}

// A row of words from a place on.
pub fn put_words(out: &mut [u64], at: usize, row: &[u64])
    requires { at + length row.now ≤ length out.old }
    ensures { WordsPut at (length row.now) row.now out.old out.new }
{
    out[at..at + row.len()].copy_from_slice(row);
}
