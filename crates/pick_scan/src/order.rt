// The order of partials in a pick by rarity: fewer peers first, then more blocks at work, then the lower piece. Each partial is one number,
// so that its blocks and its peers are looked at once; the number ends with its place.
ghost use Rattle.std.specs.Prelude.{◌≡◌, ◌≤◌, ◌<◌, length};
ghost use Rattle.model.specs.change.Partials.{progress};
ghost use Rattle.memory_layout.specs.Changes.{partial_in};
ghost use Rattle.check_partials.specs.Records.{CountsHeld};
ghost use Rattle.memory_rows.specs.Lookup.{picker_in};
ghost use Rattle.ask_picker.specs.Asked.{Asked};
ghost use Rattle.pick_scan.specs.Scans.{key_of, Gives, PlacesRise};

use memory_counts::{finished, requested, writing};
use memory_fields::peer_count;
use memory_layout::Shape;
use types::{u16_to_usize, u32_to_usize, usize_to_u32};

// How many blocks of partial k are not free, by the counts that the memory test left.
fn progress_of(
    words: &[u64],
    cells: &[u16],
    rows: &[u32],
    live: usize,
    counts: &[u16],
    s: Shape,
    k: usize,
) -> usize
    requires asked { Asked s live rows.now words.now cells.now }
    requires counts_held { (CountsHeld (picker_in live rows.now words.now cells.now) live counts.now) × (length counts.now ≡ 1536) }
    requires k_lt_live { k < live }
    ensures { (result ≡ progress (partial_in (picker_in live rows.now words.now cells.now) k))
        × (result ≤ 256) }
{
    let asked = requested(counts, k);
    let came = writing(counts, k);
    let held = finished(counts, k);
    u16_to_usize(asked) + u16_to_usize(came) + u16_to_usize(held)
}

// The number of partial k: peers, free blocks, place.
fn key_of(
    words: &[u64],
    cells: &[u16],
    rows: &[u32],
    live: usize,
    counts: &[u16],
    s: Shape,
    k: usize,
) -> u32
    requires asked { Asked s live rows.now words.now cells.now }
    requires counts_held { (CountsHeld (picker_in live rows.now words.now cells.now) live counts.now) × (length counts.now ≡ 1536) }
    requires k_lt_live { k < live }
    ensures { result ≡ key_of (picker_in live rows.now words.now cells.now) k }
{
    let peers = peer_count(cells, s, u32_to_usize(rows[k]));
    let progress = progress_of(words, cells, rows, live, counts, s, k);
    usize_to_u32((u16_to_usize(peers) * 512 + (256 - progress)) * 512 + k)
}

// Those of the first places.
pub fn keys_of(
    words: &[u64],
    cells: &[u16],
    rows: &[u32],
    live: usize,
    counts: &[u16],
    s: Shape,
    places: &[u16; 512],
    many: usize,
    keys: &mut [u32; 512],
)
    requires asked { Asked s live rows.now words.now cells.now }
    requires counts_held { (CountsHeld (picker_in live rows.now words.now cells.now) live counts.now) × (length counts.now ≡ 1536) }
    requires places_rise { (PlacesRise live many places.now) × (length keys.old ≡ 512) }
    ensures { Gives (key_of (picker_in live rows.now words.now cells.now)) many places.now
        keys.new }
{
    for j in 0..many {
        keys[j] = key_of(words, cells, rows, live, counts, s, u16_to_usize(places[j]));
    }
}
