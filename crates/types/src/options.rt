// The option bits of a pick, under the names of the Rust.
ghost use Rattle.std.specs.Prelude.{◌≡◌, ◌∷◌};
ghost use Rattle.types.specs.Bits.{meets, union, powers_from};

#[derive(Clone, Copy, PartialEq, Eq)]
pub struct PickerOptions(pub u16);

impl PickerOptions {
    pub const RAREST_FIRST: PickerOptions = PickerOptions(1);

    pub const REVERSE: PickerOptions = PickerOptions(2);

    pub const ON_PAROLE: PickerOptions = PickerOptions(4);

    pub const PRIORITIZE_PARTIALS: PickerOptions = PickerOptions(8);

    pub const SEQUENTIAL: PickerOptions = PickerOptions(16);

    pub const TIME_CRITICAL: PickerOptions = PickerOptions(32);

    pub const ALIGN_EXPANDED_PIECES: PickerOptions = PickerOptions(64);

    pub const PIECE_EXTENT_AFFINITY: PickerOptions = PickerOptions(128);

    pub const NONE: PickerOptions = PickerOptions(0);

    // Whether some bit is set in both.
    pub fn contains(self, f: PickerOptions) -> bool
        ensures { result ≡ meets self.0 f.0 }
    {
        self.0 & f.0 != 0
    }

    // The bits of both.
    pub fn with(self, f: PickerOptions) -> PickerOptions
        ensures { result.0 ≡ union self.0 f.0 }
    {
        PickerOptions(self.0 | f.0)
    }

    // The value of each constant: NONE, and the others in the order of their bits.
    pub fn all() -> [u16; 9]
        ensures { result ≡ 0 ∷ powers_from 0 8 }
    {
        [
            PickerOptions::NONE.0,
            PickerOptions::RAREST_FIRST.0,
            PickerOptions::REVERSE.0,
            PickerOptions::ON_PAROLE.0,
            PickerOptions::PRIORITIZE_PARTIALS.0,
            PickerOptions::SEQUENTIAL.0,
            PickerOptions::TIME_CRITICAL.0,
            PickerOptions::ALIGN_EXPANDED_PIECES.0,
            PickerOptions::PIECE_EXTENT_AFFINITY.0,
        ]
    }
}
