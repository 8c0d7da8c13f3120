// Pieces that passed their hash check while they are still partials.
ghost use Rattle.std.specs.Prelude.{◌≡◌, true, ◌≤◌, length};
ghost use Rattle.memory_records.specs.Records.{rising_from};
ghost use Rattle.memory_records.specs.Rows.{records_in};
ghost use Rattle.ask_totals.specs.Marks.{PiecesLow, Marked};

use types::u32_to_usize;

// 1 for each of them and 0 for any other, whatever the marks were before.
pub fn mark_passed(rows: &[u32], live: usize, marks: &mut [u16; 4096])
    requires live_bound { (live ≤ 512) × (length rows.now ≡ 1536) }
    requires rows_value { rising_from 0 (records_in live rows.now) ≡ true }
    requires pieces_low { PiecesLow live rows.now }
    ensures { Marked rows.now live marks.new }
{
    *marks = [0; 4096];
    for k in 0..live {
        let piece = u32_to_usize(rows[k]);
        marks[piece] = (rows[1024 + k] % 2) as u16;
    }
}
