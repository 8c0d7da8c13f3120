// The queue that a piece stands in.
ghost use Rattle.std.specs.Prelude.{◌≡◌, map, ok_or};
ghost use Rattle.types.specs.Queue.{queue_number, queue_with_number, queues, unreverse, make_reverse, is_reverse, is_downloading};

use crate::unknown::UnknownNumber;

#[derive(Clone, Copy, PartialEq, Eq)]
pub enum DownloadQueue {
    // Some blocks are outstanding.
    Downloading = 0,
    // All blocks are requested or received, some only requested.
    Full = 1,
    // All blocks are received.
    Finished = 2,
    // A partial piece whose priority is 0.
    ZeroPrio = 3,
    // In no queue.
    Open = 4,
    // As Downloading, requested by a peer that picks in reverse.
    DownloadingReverse = 5,
    // As Full, requested by a peer that picks in reverse.
    FullReverse = 6,
}

impl DownloadQueue {
    // The number of each queue, as a word.
    pub const DOWNLOADING_NUMBER: u64 = 0;

    pub const FULL_NUMBER: u64 = 1;

    pub const FINISHED_NUMBER: u64 = 2;

    pub const ZERO_PRIO_NUMBER: u64 = 3;

    pub const OPEN_NUMBER: u64 = 4;

    pub const DOWNLOADING_REVERSE_NUMBER: u64 = 5;

    pub const FULL_REVERSE_NUMBER: u64 = 6;

    // The value of each of these constants, in their order.
    pub fn numbers() -> [u64; 7]
        ensures { result ≡ map queue_number queues }
    {
        [
            DownloadQueue::DOWNLOADING_NUMBER,
            DownloadQueue::FULL_NUMBER,
            DownloadQueue::FINISHED_NUMBER,
            DownloadQueue::ZERO_PRIO_NUMBER,
            DownloadQueue::OPEN_NUMBER,
            DownloadQueue::DOWNLOADING_REVERSE_NUMBER,
            DownloadQueue::FULL_REVERSE_NUMBER,
        ]
    }

    // The queue without its direction.
    pub fn queue(self) -> DownloadQueue
        ensures { result ≡ unreverse self }
    {
        match self {
            DownloadQueue::DownloadingReverse => DownloadQueue::Downloading,
            DownloadQueue::FullReverse => DownloadQueue::Full,
            _ => self,
        }
    }

    pub fn is_reverse(self) -> bool
        ensures { result ≡ is_reverse self }
    {
        matches!(
            self,
            DownloadQueue::DownloadingReverse | DownloadQueue::FullReverse
        )
    }

    pub fn unreverse(self) -> DownloadQueue
        ensures { result ≡ unreverse self }
    {
        self.queue()
    }

    pub fn make_reverse(self) -> DownloadQueue
        ensures { result ≡ make_reverse self }
    {
        match self {
            DownloadQueue::Downloading => DownloadQueue::DownloadingReverse,
            DownloadQueue::Full => DownloadQueue::FullReverse,
            _ => self,
        }
    }

    // Whether the piece is in some queue.
    pub fn is_downloading(self) -> bool
        ensures { result ≡ is_downloading self }
    {
        !matches!(self, DownloadQueue::Open)
    }

    pub fn number(self) -> u8
        ensures { result ≡ queue_number self }
    {
        self as u8
    }
}

impl TryFrom<u8> for DownloadQueue {
    type Error = UnknownNumber;

    ghost try_from_gives = { λ n found. found ≡ ok_or (queue_with_number n) (record { number = n }) };

    #[tactic(auto, unfolding(crate::specs::Queue::queue_with_number, crate::specs::Numbers::case_with))]
    fn try_from(n: u8) -> Result<DownloadQueue, UnknownNumber> {
        match n {
            0 => Ok(DownloadQueue::Downloading),
            1 => Ok(DownloadQueue::Full),
            2 => Ok(DownloadQueue::Finished),
            3 => Ok(DownloadQueue::ZeroPrio),
            4 => Ok(DownloadQueue::Open),
            5 => Ok(DownloadQueue::DownloadingReverse),
            6 => Ok(DownloadQueue::FullReverse),
            _ => Err(UnknownNumber { number: n }),
        }
    }
}
