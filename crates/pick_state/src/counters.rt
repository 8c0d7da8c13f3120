// The counters of a pick's loops.
ghost use Rattle.std.specs.Prelude.{◌≡◌, ◌+◌, ◌<◌, length};
ghost use Rattle.model.specs.Lists.{nth, set_nth};

// One step more on a counter.
pub fn count(loops: &mut [u64], counter: usize)
    requires { (counter < length loops.old) × (nth 0 loops.old counter < 9223372036854775808) }
    ensures { loops.new ≡ set_nth counter (nth 0 loops.old counter + 1) loops.old }
{
    loops[counter] = loops[counter] + 1;
}
