// Public answers of several numbers.
ghost use Rattle.std.specs.Prelude.{◌≡◌};
ghost use Rattle.export_answers.specs.Records.{of_copies, of_count, of_sizes, of_stats, of_info};

use crate::refusals::{number, place};
use ask_columns::DistributedCopies;
use ask_partial::PieceInfo;
use ask_piece::PieceStats;
use ask_progress::QueueSizes;
use ask_totals::PieceCount;
use types::Refusal;

// The least copies of a piece, and how many pieces have more in thousandths.
#[repr(C)]
#[derive(Drop)]
pub struct Copied {
    pub refusal: u32,
    pub place: usize,
    pub integer: u64,
    pub fraction: u64,
}

pub fn of_copies(o: Result<DistributedCopies, Refusal>) -> Copied
    ensures { result ≡ of_copies o }
{
    match o {
        Err(why) => Copied {
            refusal: number(why),
            place: place(why),
            integer: 0,
            fraction: 0,
        },
        Ok(x) => Copied {
            refusal: 0,
            place: 0,
            integer: x.integer,
            fraction: x.fraction,
        },
    }
}

// Pieces, their pad bytes, and whether the last piece is among them.
#[repr(C)]
#[derive(Drop)]
pub struct Counted {
    pub refusal: u32,
    pub place: usize,
    pub num_pieces: u64,
    pub pad_bytes: u64,
    pub last_piece: bool,
}

pub fn of_count(o: Result<PieceCount, Refusal>) -> Counted
    ensures { result ≡ of_count o }
{
    match o {
        Err(why) => Counted {
            refusal: number(why),
            place: place(why),
            num_pieces: 0,
            pad_bytes: 0,
            last_piece: false,
        },
        Ok(x) => Counted {
            refusal: 0,
            place: 0,
            num_pieces: x.num_pieces,
            pad_bytes: x.pad_bytes,
            last_piece: x.last_piece,
        },
    }
}

// How many partials each queue has.
#[repr(C)]
#[derive(Drop)]
pub struct Sized {
    pub refusal: u32,
    pub place: usize,
    pub downloading: usize,
    pub full: usize,
    pub finished: usize,
    pub zero_prio: usize,
}

pub fn of_sizes(o: Result<QueueSizes, Refusal>) -> Sized
    ensures { result ≡ of_sizes o }
{
    match o {
        Err(why) => Sized {
            refusal: number(why),
            place: place(why),
            downloading: 0,
            full: 0,
            finished: 0,
            zero_prio: 0,
        },
        Ok(x) => Sized {
            refusal: 0,
            place: 0,
            downloading: x.downloading,
            full: x.full,
            finished: x.finished,
            zero_prio: x.zero_prio,
        },
    }
}

// How many have a piece, its priority where it is listed, and its state.
#[repr(C)]
#[derive(Drop)]
pub struct Stats {
    pub refusal: u32,
    pub place: usize,
    pub peer_count: u64,
    pub listed: bool,
    pub priority: u16,
    pub flushed: bool,
    pub downloading: bool,
}

pub fn of_stats(o: Result<PieceStats, Refusal>) -> Stats
    ensures { result ≡ of_stats o }
{
    match o {
        Err(why) => Stats {
            refusal: number(why),
            place: place(why),
            peer_count: 0,
            listed: false,
            priority: 0,
            flushed: false,
            downloading: false,
        },
        Ok(x) => Stats {
            refusal: 0,
            place: 0,
            peer_count: x.peer_count,
            listed: x.listed,
            priority: x.priority,
            flushed: x.flushed,
            downloading: x.downloading,
        },
    }
}

// A partial: how many of its blocks are in each state, and its flags.
#[repr(C)]
#[derive(Drop)]
pub struct Info {
    pub refusal: u32,
    pub place: usize,
    pub index: usize,
    pub finished: u16,
    pub passed_hash_check: bool,
    pub writing: u16,
    pub locked: bool,
    pub requested: u16,
    pub hashing: bool,
}

pub fn of_info(o: Result<PieceInfo, Refusal>) -> Info
    ensures { result ≡ of_info o }
{
    match o {
        Err(why) => Info {
            refusal: number(why),
            place: place(why),
            index: 0,
            finished: 0,
            passed_hash_check: false,
            writing: 0,
            locked: false,
            requested: 0,
            hashing: false,
        },
        Ok(x) => Info {
            refusal: 0,
            place: 0,
            index: x.index,
            finished: x.finished,
            passed_hash_check: x.passed_hash_check,
            writing: x.writing,
            locked: x.locked,
            requested: x.requested,
            hashing: x.hashing,
        },
    }
}
