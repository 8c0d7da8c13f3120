// The rank of a piece by its numbers: one more than its bucket, and 0 where it is in none.
#![tactic(auto)]

ghost use Rattle.std.specs.Prelude.{◌≡◌, ◌≤◌};
ghost use Rattle.model.specs.State.{max_peers};
ghost use Rattle.model.specs.State.{max_priority};
ghost use Rattle.list_rank.specs.Ranks.{adjustment_of, unlisted_by, max_rank, IsRank};

use types::{DownloadQueue, MAX_RANK, PRIO_FACTOR, PRIORITY_LEVELS};

// No rank: not wanted, there already, with no peer that has it, or all of it requested or received.
pub fn unlisted(seeds: u64, peer_count: u64, state: u64, priority: u64, flushed: bool) -> bool
    ensures { result ≡ unlisted_by seeds peer_count state priority flushed }
{
    (priority == 0)
        | flushed
        | ((peer_count == 0) & (seeds == 0))
        | (state == DownloadQueue::FULL_NUMBER)
        | (state == DownloadQueue::FINISHED_NUMBER)
}

// What the state takes off: 1 for the two reverse ones, 2 where the piece is in no queue, and 3 for any other.
pub fn adjustment(state: u64) -> u64
    ensures { result ≡ adjustment_of state }
{
    if (state == DownloadQueue::DOWNLOADING_REVERSE_NUMBER)
        | (state == DownloadQueue::FULL_REVERSE_NUMBER)
    {
        return 1;
    }
    if state == DownloadQueue::OPEN_NUMBER {
        2
    } else {
        3
    }
}

// The value of MAX_RANK.
pub fn max_rank() -> usize
    ensures { result ≡ max_rank }
{
    MAX_RANK
}

// The rank. With at most 1000 peers that have the piece it is at most 21,021.
pub fn rank(seeds: u64, peer_count: u64, state: u64, priority: u64, flushed: bool) -> u64
    requires peer_count_le_max_peers { peer_count ≤ max_peers }
    requires priority_le_max_priority { priority ≤ max_priority }
    ensures { IsRank seeds peer_count state priority flushed result }
{
    if unlisted(seeds, peer_count, state, priority, flushed) {
        return 0;
    }
    (peer_count + 1) * (PRIORITY_LEVELS - priority) * PRIO_FACTOR - adjustment(state) + 1
}
