// The places of the live records.
ghost use Rattle.std.specs.Prelude.{◌≡◌, ◌≤◌, length};
ghost use Rattle.memory_records.specs.Rows.{records_in};
ghost use Rattle.memory_layout.specs.Decode.{head_word};
ghost use Rattle.memory_layout.specs.Bounds.{ShapeOf};
ghost use Rattle.memory_layout.specs.Good.{good_places};

use memory_layout::Shape;
use memory_records::row;
use types::u32_to_usize;

// Each live record has a place that is there and that no record before it has.
pub fn places_ok(words: &[u64], rows: &[u32], live: usize, s: Shape) -> bool
    requires shape_of { ShapeOf s words.now }
    requires live_value { (live ≡ head_word words.now 7) × (live ≤ s.places) × (length rows.now ≡ 1536) }
    ensures { result ≡ good_places (records_in live rows.now) words.now }
{
    let many = s.places;
    let mut marks = [false; 512];
    for k in 0..live {
        let record = row(rows, k);
        let place = u32_to_usize(record.info_idx);
        if many <= place {
            return false;
        }
        if marks[place] {
            return false;
        }
        marks[place] = true;
    }
    true
}
