// The head.
ghost use Rattle.std.specs.Prelude.{◌≡◌, ◌++◌, ◌≤◌, length, drop};
ghost use Rattle.model.specs.Lists.{bit};
ghost use Rattle.image_columns.specs.Columns.{head_words};

use image_pieces::Head;

fn one_if(t: bool) -> u64
    ensures { result ≡ bit t }
{
    u64::from(t)
}

// The first six words. How many list places, partials and extents there are is told behind them, once they are stored.
pub fn store_head(words: &mut [u64], head: Head)
    requires { 16 ≤ length words.old }
    ensures { words.new ≡ head_words head ++ drop 6 words.old }
{
    let dirty = one_if(head.dirty);
    words[0] = head.total;
    words[1] = head.size;
    words[2] = head.seeds;
    words[3] = head.cursor;
    words[4] = head.reverse_cursor;
    words[5] = dirty;
}
