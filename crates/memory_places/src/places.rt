// The place that a partial takes: the lowest that no live record has.
ghost use Rattle.std.specs.Prelude.{◌≡◌, [], ◌+◌, ◌-◌, ◌*◌, ◌<◌, ◌≤◌, eqb, length};
ghost use Rattle.memory_layout.specs.Bounds.{Sizes};
ghost use Rattle.memory_places.specs.Places.{places_taken, PlacesBelow, PlacesApart, places_sum, lowest_free};
ghost use Rattle.memory_places.specs.Places.{Marked, unmarked_from, marked_through};

use memory_layout::Shape;
use memory_records::row;
use types::u32_to_usize;

// A mark for each place that one of the first `live` rows has.
fn mark_places(marks: &mut [bool; 512], rows: &[u32], live: usize)
    requires marked { Marked [] marks.old }
    requires live_bound { (live ≤ 512) × (length rows.now ≡ 1536) }
    requires places_below { PlacesBelow 512 live rows.now }
    ensures { Marked (places_taken live rows.now) marks.new }
{
    for k in 0..live {
        let record = row(rows, k);
        let place = u32_to_usize(record.info_idx);
        marks[place] = true;
    }
}

// Whether the 32 places from p on are all marked. The loop has no way out, so that many marks are taken at a time.
fn stretch_marked(marks: &[bool; 512], p: usize) -> bool
    requires { (p + 32 ≤ 512) × (length marks.now ≡ 512) }
    ensures { result ≡ marked_through marks.now 32 p }
{
    let mut all = true;
    for k in 0..32 {
        all = all & marks[p + k];
    }
    all
}

// The place behind the marked stretches at the front: the search may start there.
fn first_stretch(marks: &[bool; 512], places: usize) -> usize
    requires { (places ≤ 512) × (length marks.now ≡ 512) }
    ensures { (result ≤ places) × (unmarked_from marks.now (places - result) result ≡ unmarked_from marks.now places 0) }
{
    let stretches = places / 32;
    for k in 0..stretches {
        let p = 32 * k;
        if !stretch_marked(marks, p) {
            return p;
        }
    }
    32 * stretches
}

// The first of so many places without a mark, or their number.
fn first_unmarked(marks: &[bool; 512], places: usize) -> usize
    requires { (places ≤ 512) × (length marks.now ≡ 512) }
    ensures { result ≡ unmarked_from marks.now places 0 }
{
    let start = first_stretch(marks, places);
    for p in start..places {
        if !marks[p] {
            return p;
        }
    }
    places
}

// Whether the first `live` rows have places below their number: different places add up to as much as 0 to live - 1 only where they are
// these. The loop has no way out, so that many rows are taken at a time.
fn places_low(rows: &[u32], live: usize) -> bool
    requires live_bound { (live ≤ 512) × (length rows.now ≡ 1536) }
    requires places_below { PlacesBelow 512 live rows.now }
    ensures { result ≡ eqb (2 * places_sum live rows.now + live) (live * live) }
{
    let mut sum: u32 = 0;
    for k in 0..live {
        sum += rows[512 + k];
    }
    2 * u32_to_usize(sum) + live == live * live
}

// The first place without a mark, where each live row has marked its own.
fn first_free(rows: &[u32], live: usize, places: usize) -> usize
    requires live_bound { (live ≤ 512) × (places ≤ 512) × (length rows.now ≡ 1536) }
    requires places_below { PlacesBelow 512 live rows.now }
    ensures { result ≡ lowest_free places (places_taken live rows.now) }
{
    let mut marks = [false; 512];
    mark_places(&mut marks, rows, live);
    first_unmarked(&marks, places)
}

// The lowest place that no live row has. There is one where fewer records are live than there are places. Where all of their places are
// below their number, as a station's mostly are, the rows have all of these, and it is that number.
pub fn free_place(rows: &[u32], live: usize, s: Shape) -> usize
    requires sizes { Sizes s }
    requires live_lt_places { (live < s.places) × (length rows.now ≡ 1536) }
    requires places_below { PlacesBelow s.places live rows.now }
    requires places_apart { PlacesApart live rows.now }
    ensures { (result ≡ lowest_free s.places (places_taken live rows.now)) × (result < s.places) }
{
    if places_low(rows, live) {
        return live;
    }
    first_free(rows, live, s.places)
}
