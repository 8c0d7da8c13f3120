// The flag bits that a pick returns: which of its steps were taken.
ghost use Rattle.std.specs.Prelude.{◌≡◌};
ghost use Rattle.types.specs.Bits.{meets, union, powers_from};

#[derive(Clone, Copy, PartialEq, Eq)]
pub struct PickerFlags(pub u32);

impl PickerFlags {
    pub const PARTIAL_RATIO: PickerFlags = PickerFlags(1);

    pub const PRIORITIZE_PARTIALS: PickerFlags = PickerFlags(2);

    pub const RAREST_FIRST_PARTIALS: PickerFlags = PickerFlags(4);

    pub const RAREST_FIRST: PickerFlags = PickerFlags(8);

    pub const REVERSE_RAREST_FIRST: PickerFlags = PickerFlags(16);

    pub const SUGGESTED_PIECES: PickerFlags = PickerFlags(32);

    pub const PRIO_SEQUENTIAL_PIECES: PickerFlags = PickerFlags(64);

    pub const SEQUENTIAL_PIECES: PickerFlags = PickerFlags(128);

    pub const REVERSE_PIECES: PickerFlags = PickerFlags(256);

    pub const TIME_CRITICAL: PickerFlags = PickerFlags(512);

    pub const RANDOM_PIECES: PickerFlags = PickerFlags(1024);

    pub const PREFER_CONTIGUOUS: PickerFlags = PickerFlags(2048);

    pub const REVERSE_SEQUENTIAL: PickerFlags = PickerFlags(4096);

    pub const BACKUP1: PickerFlags = PickerFlags(8192);

    pub const BACKUP2: PickerFlags = PickerFlags(16384);

    pub const END_GAME: PickerFlags = PickerFlags(32768);

    pub const EXTENT_AFFINITY: PickerFlags = PickerFlags(65536);

    // Whether some bit is set in both.
    pub fn contains(self, f: PickerFlags) -> bool
        ensures { result ≡ meets self.0 f.0 }
    {
        self.0 & f.0 != 0
    }

    // The bits of both.
    pub fn with(self, f: PickerFlags) -> PickerFlags
        ensures { result.0 ≡ union self.0 f.0 }
    {
        PickerFlags(self.0 | f.0)
    }

    // The value of each constant, in the order of their bits.
    pub fn all() -> [u32; 17]
        ensures { result ≡ powers_from 0 17 }
    {
        [
            PickerFlags::PARTIAL_RATIO.0,
            PickerFlags::PRIORITIZE_PARTIALS.0,
            PickerFlags::RAREST_FIRST_PARTIALS.0,
            PickerFlags::RAREST_FIRST.0,
            PickerFlags::REVERSE_RAREST_FIRST.0,
            PickerFlags::SUGGESTED_PIECES.0,
            PickerFlags::PRIO_SEQUENTIAL_PIECES.0,
            PickerFlags::SEQUENTIAL_PIECES.0,
            PickerFlags::REVERSE_PIECES.0,
            PickerFlags::TIME_CRITICAL.0,
            PickerFlags::RANDOM_PIECES.0,
            PickerFlags::PREFER_CONTIGUOUS.0,
            PickerFlags::REVERSE_SEQUENTIAL.0,
            PickerFlags::BACKUP1.0,
            PickerFlags::BACKUP2.0,
            PickerFlags::END_GAME.0,
            PickerFlags::EXTENT_AFFINITY.0,
        ]
    }
}
