// Calls of three shapes over words, cells and partial records: what each shape asks of its core. The cores are as small as can be.
#![tactic(auto)]

ghost use Rattle.std.specs.Prelude.{◌≡◌, length};
ghost use Rattle.walk_examples.specs.Starting.{start_edit, started};

use memory_edits::apply;
use memory_records::{DownloadingPiece, Edit, live_records, pack, unpack};

// What the core of a change answers: the call's answer, how many records are live, and what becomes of them.
#[derive(Drop)]
pub struct Step {
    pub out: u64,
    pub count: usize,
    pub edit: Edit,
}

// What the core of a reader answers: the call's answer, and how many rows are records.
#[derive(Drop)]
pub struct Read {
    pub out: u64,
    pub count: usize,
}

// An argument of several numbers.
#[repr(C)]
#[derive(Drop)]
pub struct Ask {
    pub piece: i32,
    pub block: i32,
}

// ---- a change: the record of a piece, put in where none is live
fn start_core(words: &mut [u64], cells: &mut [u16], rows: &[u32], lent: usize, a: u32) -> Step
    requires { length rows.now ≡ 1536 }
    ensures { (result.out ≡ 0) × (result.count ≡ 0) × (result.edit ≡ start_edit lent a) }
{
    if lent == 0 {
        return Step {
            out: 0,
            count: 0,
            edit: Edit::Keep,
        };
    }
    let d = DownloadingPiece {
        index: a,
        info_idx: 0,
        flags: 0,
    };
    Step {
        out: 0,
        count: 0,
        edit: Edit::Insert(d),
    }
}

#[unsafe(no_mangle)]
pub extern "C" fn start(
    words: &mut [u64],
    cells: &mut [u16],
    partials: &mut [DownloadingPiece],
    a: u32,
) -> u64
    ensures { (result ≡ 0) × (partials.new ≡ started a partials.old) }
{
    let mut rows = [0; 1536];
    let live = live_records(words);
    let lent = unpack(partials, live, &mut rows);
    let r = start_core(words, cells, &rows, lent, a);
    apply(partials, r.count, r.edit);
    r.out
}

// ---- a question that fills a lent list
fn list_core(
    words: &[u64],
    cells: &[u16],
    rows: &[u32],
    lent: usize,
    out: &mut [u64],
    a: Ask,
) -> u64
    requires { length rows.now ≡ 1536 }
    ensures { (result ≡ lent) × (out.new ≡ out.old) }
{
    lent as u64
}

#[unsafe(no_mangle)]
pub extern "C" fn list(
    words: &[u64],
    cells: &[u16],
    partials: &[DownloadingPiece],
    out: &mut [u64],
    a: Ask,
) -> u64
    ensures { (result ≡ length partials.now) × (out.new ≡ out.old) }
{
    let mut rows = [0; 1536];
    let live = live_records(words);
    let lent = unpack(partials, live, &mut rows);
    list_core(words, cells, &rows, lent, out, a)
}

// ---- an image read: no row is a record
fn read_core(
    words: &mut [u64],
    cells: &mut [u16],
    rows: &mut [u32],
    lent: usize,
    bytes: &[u8],
) -> Read
    requires { length rows.old ≡ 1536 }
    ensures { (result.out ≡ 0) × (result.count ≡ 0) }
{
    rows[0] = 7;
    Read { out: 0, count: 0 }
}

#[unsafe(no_mangle)]
pub extern "C" fn read_image(
    words: &mut [u64],
    cells: &mut [u16],
    partials: &mut [DownloadingPiece],
    bytes: &[u8],
) -> u64
    ensures { (result ≡ 0) × (partials.new ≡ partials.old) }
{
    let mut rows = [0; 1536];
    let live = live_records(words);
    let lent = unpack(partials, live, &mut rows);
    let r = read_core(words, cells, &mut rows, lent, bytes);
    pack(partials, &rows, r.count);
    r.out
}
