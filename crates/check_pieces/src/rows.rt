// The cells of one piece: what is wrong with them, and its rank. Neither has a way out in the middle of its caller's loop, and no
// cell makes a number wrap.
ghost use Rattle.std.specs.Prelude.{◌≡◌, not, ◌&&◌, ◌||◌, ◌≤◌, eqb};
ghost use Rattle.check_pieces.specs.Rows.{cells_ok, wrongless, joined_ok, rank_from, Ranked};

// The cells of pieces joined by `|`: what is wrong with them, and the cells whose limit is a power of two less one.
#[derive(Drop)]
pub struct Joined {
    pub wrong: u16,
    pub priorities: u16,
    pub flushed: u16,
}

// 0 unless the piece is flushed and not Open.
fn flushed_at_work(state: u16, flushed: u16) -> u16
    ensures { eqb result 0 ≡ (not (eqb flushed 1) || eqb state 4) }
{
    if flushed == 1 {
        if state != 4 {
            return 65535;
        }
    }
    0
}

// 0 where count and state are in their ranges and a flushed piece is Open.
fn wrong_in(seeds: u16, count: u16, state: u16, flushed: u16) -> u16
    requires { seeds ≤ 1000 }
    ensures { eqb result 0 ≡ wrongless seeds count state flushed }
{
    let limit = 1000 - seeds;
    count.saturating_sub(limit) | state.saturating_sub(6) | flushed_at_work(state, flushed)
}

// One piece's cells joined to those before it.
pub fn join(sum: Joined, seeds: u16, count: u16, state: u16, priority: u16, flushed: u16) -> Joined
    requires { seeds ≤ 1000 }
    ensures { joined_ok result ≡ (joined_ok sum && cells_ok seeds count state priority flushed) }
{
    Joined {
        wrong: sum.wrong | wrong_in(seeds, count, state, flushed),
        priorities: sum.priorities | priority,
        flushed: sum.flushed | flushed,
    }
}

// No wrong bit is in the joined cells.
pub fn joined_ok(sum: Joined) -> bool
    ensures { result ≡ joined_ok sum }
{
    (sum.wrong == 0) & (sum.priorities < 8) & (sum.flushed < 2)
}

// The rank of a piece with these cells, if they are in their ranges.
pub fn rank_in(seeds: u16, count: u16, state: u16, priority: u16, flushed: u16) -> u16
    ensures { Ranked count state priority → result ≡ rank_from seeds count state priority flushed }
{
    let unlisted = (priority == 0)
        | (flushed == 1)
        | ((count == 0) & (seeds == 0))
        | (state == 1)
        | (state == 2);
    let taken_off = 5u16.saturating_sub(state).min(2);
    let full = (count % 1024 + 1) * (24 - 3 * (priority % 8)) - taken_off;
    if unlisted {
        return 0;
    }
    full
}
