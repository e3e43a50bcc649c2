// A worker's record by value.
#![tactic(auto)]

ghost use Rattle.std.specs.Prelude.{◌≡◌};
ghost use Rattle.model.specs.Store.{start_worker};
ghost use Rattle.worker.specs.Rep.{time_of, worker_rep};

use values::Reading;

// H1.19: a local pool, of at most 64 ranges: how many, and the slot, the low and the high of each.
#[derive(Clone, Copy)]
pub struct Pool {
    pub slots: [u16; 64],
    pub lows: [u32; 64],
    pub highs: [u32; 64],
    pub len: usize,
}

pub const EMPTY: Pool = Pool {
    slots: [0u16; 64],
    lows: [0u32; 64],
    highs: [0u32; 64],
    len: 0,
};

// The announced time or none.
pub type Announced = Option<u32>;

// A step that moves a time and no version: open (1) and (2), close; mark and release (H13.3, H13.4), of a mark.
#[derive(Clone, Copy)]
pub enum TimeStep {
    OpenAnnounce,
    OpenPass,
    CloseWithdraw,
    MarkKeep(u16),
    MarkRelease(u16),
}

// The sums of a total: what was added, what was subtracted, and the largest status that was read.
#[derive(Clone, Copy)]
pub struct Sum {
    pub plus: u64,
    pub minus: u64,
    pub status: u8,
}

// What a value is read for: it is the answer, as of the worker's time; or as of a mark's (H13.5); or it goes into a total: the group, the index
// of the row in the list, and the sums of the rows before it, as three numbers: a struct here would make every copy of a place dearer.
#[derive(Clone, Copy)]
pub enum Purpose {
    Single,
    Marked(u16),
    Totaling {
        group: u16,
        row: u16,
        status: u8,
        plus: u64,
        minus: u64,
    },
}

// What a read, a marked read or a total is at: the register that it reads, and what for.
#[derive(Clone, Copy)]
pub struct Goal {
    pub register: u16,
    pub purpose: Purpose,
}

// What a worker is doing and its place in it. A place is named after the step that comes next.
#[derive(Clone, Copy)]
pub enum Doing {
    Idle,
    PutPublish { register: u16, reading: Reading },
    PutStamp { register: u16, covered: u16 },
    PutHandIn { register: u16, covered: u16 },
    FlushTake,
    // how many ranges the merged list has and how many times were read
    FlushRead { merged: u16, read: u8 },
    // how many needless ranges are left
    FlushFree { left: u16 },
    OnTime(TimeStep),
    ReadEnter { goal: Goal },
    ReadStand { goal: Goal, slot: u16 },
    GetShow { register: u16 },
}

// A worker's record.
#[derive(Clone, Copy)]
pub struct Worker {
    pub doing: Doing,
    pub announced: Announced,
    pub pool: Pool,
}

impl Worker {
    // H1.16: idle, without a time, with an empty pool.
    pub fn start() -> Worker
        ensures { result ≡ worker_rep start_worker }
    {
        Worker {
            doing: Doing::Idle,
            announced: None,
            pool: EMPTY,
        }
    }
}

// An announced time; 4294967296 where there is none.
pub fn time_of(t: Announced) -> u64
    ensures { result ≡ time_of t }
{
    match t {
        None => 4294967296,
        Some(a) => a as u64,
    }
}
