// How many blocks of partial k are requested, being written and finished: three columns of 512, as the memory test leaves them.
// They are three and not one with the column as a number, so that a caller names a state.
#![tactic(auto)]

ghost use Rattle.std.specs.Prelude.{◌≡◌, ◌<◌, length};
ghost use Rattle.types.specs.declared.block.BlockState.TheVariants.{Requested, Writing, Finished};
ghost use Rattle.memory_counts.specs.Counted.{CountSays};

pub fn requested(counts: &[u16], k: usize) -> u16
    requires { (k < 512) × (length counts.now ≡ 1536) }
    ensures { CountSays counts.now k Requested result }
{
    counts[k]
}

pub fn writing(counts: &[u16], k: usize) -> u16
    requires { (k < 512) × (length counts.now ≡ 1536) }
    ensures { CountSays counts.now k Writing result }
{
    counts[512 + k]
}

pub fn finished(counts: &[u16], k: usize) -> u16
    requires { (k < 512) × (length counts.now ≡ 1536) }
    ensures { CountSays counts.now k Finished result }
{
    counts[1024 + k]
}
