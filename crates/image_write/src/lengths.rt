// How long the image is: told from the records, before a byte is written.
ghost use Rattle.std.specs.Prelude.{◌≡◌, get_or};
ghost use Rattle.model.specs.Bep3.{sum_to};
ghost use Rattle.memory_layout.specs.Decode.{blocks_of};
ghost use Rattle.image_write.specs.Written.{AskedBeside, LengthSays};

use geometry::blocks_at;
use memory_layout::{Shape, head_word};
use types::{u32_to_usize, u64_to_usize, usize_to_u64};

// The blocks of all partials together.
fn blocks_of_rows(words: &[u64], rows: &[u32], live: usize, s: Shape) -> u64
    requires { AskedBeside s live rows.now words.now }
    ensures { result ≡ sum_to live (λ k. blocks_of words.now (get_or rows.now k 0)) }
{
    let total = head_word(words, 0);
    let size = head_word(words, 1);
    let mut sum = 0;
    for k in 0..live {
        sum += blocks_at(total, size, usize_to_u64(u32_to_usize(rows[k])));
    }
    sum
}

pub fn image_length(words: &[u64], rows: &[u32], live: usize, s: Shape) -> usize
    requires { AskedBeside s live rows.now words.now }
    ensures { LengthSays s live rows.now words.now result }
{
    let blocks = blocks_of_rows(words, rows, live, s);
    let extents = head_word(words, 8);
    let places = head_word(words, 6);
    u64_to_usize(geometry_needs::image_length(
        usize_to_u64(s.pieces),
        usize_to_u64(live),
        blocks,
        extents,
        places,
    ))
}
