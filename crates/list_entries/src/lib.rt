// The words of the bucket list: a word is rank · 65,536 + piece. Relies on nothing but the definition of ranks.
#![tactic(auto)]

ghost use Rattle.std.specs.Prelude.{◌≡◌, ◌<◌};
ghost use Rattle.list_entries.specs.Words.{list_word, listed_rank, top_of};

// The word of piece i with its rank.
pub fn list_word(rank: u16, i: u64) -> u64
    requires { i < 65536 }
    ensures { result ≡ list_word rank i }
{
    (rank as u64) * 65536 + i
}

// The highest word of w's rank.
pub fn top_of(w: u64) -> u64
    ensures { result ≡ top_of (listed_rank w) }
{
    w - w % 65536 + 65535
}
