// Whether a partial goes with the last of its blocks that comes to disk.
ghost use Rattle.std.specs.Prelude.{◌≡◌, not, ◌&&◌, leb};
ghost use Rattle.model.specs.Bep3.{bit_of};

// Every block is on disk, and of the flags 1 passed, 2 locked and 4 hashing the first is set alone.
pub fn is_done(blocks: u16, finished: u16, flags: u32) -> bool
    ensures { result ≡ (leb blocks finished && (bit_of flags 0 && (not (bit_of flags 2) && not (bit_of flags 1)))) }
{
    (blocks <= finished) & ((flags % 2 == 1) & (!(flags / 4 % 2 == 1) & !(flags / 2 % 2 == 1)))
}
