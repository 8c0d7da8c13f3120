// The priority of a piece, 0 to 7: what document 01 calls its wish.
ghost use Rattle.std.specs.Prelude.{◌≡◌, ◌∷◌, []};

#[derive(Clone, Copy, PartialEq, Eq)]
pub struct DownloadPriority(pub u8);

impl DownloadPriority {
    pub const DONT_DOWNLOAD: DownloadPriority = DownloadPriority(0);

    pub const LOW: DownloadPriority = DownloadPriority(1);

    pub const DEFAULT: DownloadPriority = DownloadPriority(4);

    pub const TOP: DownloadPriority = DownloadPriority(7);

    // The value of each constant, lowest first.
    pub fn all() -> [u8; 4]
        ensures { result ≡ 0 ∷ 1 ∷ 4 ∷ 7 ∷ [] }
    {
        [
            DownloadPriority::DONT_DOWNLOAD.0,
            DownloadPriority::LOW.0,
            DownloadPriority::DEFAULT.0,
            DownloadPriority::TOP.0,
        ]
    }
}
