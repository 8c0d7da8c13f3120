// A pick in lent buffers, for callers in C and Rust. Only for comparison and timing: a caller has to meet what is required. The geometry
// comes in numbers; rows and counts are as the memory test leaves them.
#![tactic(auto)]

ghost use Rattle.std.specs.Prelude.{◌≡◌, length};
ghost use Rattle.types.specs.Piece.{number_of};
ghost use Rattle.model.specs.Lists.{each};
ghost use Rattle.model.specs.pick.Pick.{pick_pieces};
ghost use Rattle.check_partials.specs.Records.{CountsHeld};
ghost use Rattle.memory_rows.specs.Lookup.{picker_in};
ghost use Rattle.pick_free.specs.Picking.{Picks};
ghost use Rattle.pick_start.specs.Starting.{request_with};
ghost use Rattle.pick_pieces.specs.Whole.{PickRoom, PickGave, PickLeft};
ghost use Rattle.link_lists.specs.Lending.{shaped};
ghost use Rattle.link_pick.specs.Requests.{asked, gave};

use link_lists::Geometry;
use memory_layout::Shape;
use pick_state::PickRequest;
use types::PickerOptions;

// The arguments of a pick but for the lent slices.
#[repr(C)]
#[derive(Drop)]
pub struct Request {
    pub options: u16,
    pub wanted: usize,
    pub contiguous: usize,
    pub peers: usize,
    pub has_peer: bool,
    pub peer: u64,
    pub bits: usize,
}

// Where the output ends, the flags set, the draws used and the steps of the seven loops.
#[repr(C)]
#[derive(Drop)]
pub struct PickEnd {
    pub end: usize,
    pub flags: u32,
    pub used: usize,
    pub partial_loops: u64,
    pub suggest_loops: u64,
    pub reverse_rare_loops: u64,
    pub rare_loops: u64,
    pub rand_start_loops: u64,
    pub rand_loops: u64,
    pub busy_loops: u64,
}

#[unsafe(no_mangle)]
pub extern "C" fn pk_pick_pieces(
    words: &mut [u64],
    cells: &[u16],
    rows: &[u32],
    live: usize,
    counts: &[u16],
    g: Geometry,
    request: Request,
    bytes: &[u8],
    suggestions: &[i32],
    draws: &[u32],
    out: &mut [u64],
    end: usize,
) -> PickEnd
    requires picks { Picks (shaped g.pieces g.blocks g.places) live rows.now words.old cells.now (asked request) }
    requires counts_held { (CountsHeld (picker_in live rows.now words.old cells.now) live counts.now) × (length counts.now ≡ 1536) }
    requires pick_room { PickRoom (asked request) (length suggestions.now) end (length out.old) }
    ensures pick_gave { PickGave (pick_pieces draws.now (picker_in live rows.now words.old cells.now)
        (request_with (asked request) bytes.now (each number_of suggestions.now)))
        (picker_in live rows.now words.new cells.now) end out.old out.new
        (gave result) }
    ensures pick_left { PickLeft (shaped g.pieces g.blocks g.places) live rows.now words.old words.new
        cells.now (asked request) }
{
    let s = Shape {
        pieces: g.pieces,
        blocks: g.blocks,
        places: g.places,
    };
    let q = PickRequest {
        options: PickerOptions(request.options),
        wanted: request.wanted,
        contiguous: request.contiguous,
        peers: request.peers,
        has_peer: request.has_peer,
        peer: request.peer,
        bits: request.bits,
    };
    let r = pick_pieces::pick_pieces(
        words,
        cells,
        rows,
        live,
        counts,
        s,
        q,
        bytes,
        suggestions,
        draws,
        out,
        end,
    );
    PickEnd {
        end: r.end,
        flags: r.flags,
        used: r.used,
        partial_loops: r.partial_loops,
        suggest_loops: r.suggest_loops,
        reverse_rare_loops: r.reverse_rare_loops,
        rare_loops: r.rare_loops,
        rand_start_loops: r.rand_start_loops,
        rand_loops: r.rand_loops,
        busy_loops: r.busy_loops,
    }
}
