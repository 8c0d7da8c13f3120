// The memory test for callers in C and Rust. Only for comparison and timing: a caller has to lend 1,536 rows and as many counts.
#![tactic(auto)]

ghost use Rattle.std.specs.Prelude.{◌≡◌, length};
ghost use Rattle.link_memory.specs.Answers.{verdict_as, Answered};

use types::Refusal;

// The number of the refusal, 0 for none.
fn number(v: Result<(), Refusal>) -> u8
    ensures { result ≡ verdict_as v }
{
    match v {
        Ok(()) => 0,
        Err(why) => why.number(),
    }
}

// `rows` has the live records, and `lent` says how many records were lent. Where the answer is 0, `counts` has those of each partial.
#[unsafe(no_mangle)]
pub extern "C" fn pm_check(
    words: &[u64],
    cells: &[u16],
    rows: &[u32],
    lent: usize,
    counts: &mut [u16],
) -> u8
    requires { (length rows.now ≡ 1536) × (length counts.old ≡ 1536) }
    ensures { Answered result lent rows.now words.now cells.now counts.new }
{
    number(check_memory::check_memory(words, cells, rows, lent, counts))
}
