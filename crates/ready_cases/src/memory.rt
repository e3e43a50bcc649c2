// Lent memory that is made of thirty-three numbers, one of each kind that has a range. What is not among them is 0, absent, or a worker's start.
use state::{Hub, Lent, Site};
use values::Window;
use worker::{Doing, Goal, Purpose, TimeStep, Worker};

// Six workers, two registers, 2048 slots and batches of 15, and each number in its range.
// - The hub's sizes and counts: P, V, N, free slots, queued pools, queued ranges, at which length and at which range the queue begins, rows of totals,
//   rows of rights, B.
// - Entries of what is lent: a newest slot, a free slot, an older and a newer neighbour, the slot of a queued range, how many ranges the queue's pool
//   has besides the queued ones, the slot of a range in hand, the register of a row of totals, the worker of a row of rights; how many slots are
//   lent; the rights in a row of rights.
// - In workers' records: the length of a local pool and a slot in it, a register, a slot, how many ranges are in hand and how many times were
//   read, the row of a total and its two sums, a mark that is kept, and one that is read.
pub fn usual() -> [[u64; 11]; 3] {
    [
        [6, 2, 2048, 1, 1, 2, 3, 5, 2, 2, 15],
        [1, 1, 1, 1, 1, 0, 1, 1, 4, 2048, 1],
        [1, 1, 1, 1, 60, 6, 1, 0, 0, 0, 0],
    ]
}

// The largest that each may be beside the others; of the slots that are lent one too few.
pub fn limits() -> [[u64; 11]; 3] {
    [
        [16, 256, 2048, 2046, 1, 30, 5, 2048, 1024, 64, 64],
        [2047, 2047, 2047, 2047, 2047, 0, 2047, 1, 15, 2047, 15],
        [15, 2047, 1, 2047, 60, 6, 1, SUM, SUM, 11, 11],
    ]
}

// 31 values of twelve digits.
const SUM: u64 = 30999999999969;

fn short(x: u64) -> u16 {
    (x % 65536) as u16
}

// ---- workers

fn at(doing: Doing) -> Worker {
    let start = Worker::start();
    Worker { doing, ..start }
}

fn putting(w: [u64; 11]) -> Worker {
    at(Doing::PutStamp {
        register: short(w[2]),
        covered: short(w[3]),
    })
}

fn flushing(w: [u64; 11]) -> Worker {
    at(Doing::FlushRead {
        merged: short(w[4]),
        read: (w[5] % 256) as u8,
    })
}

fn totaling(w: [u64; 11]) -> Worker {
    let purpose = Purpose::Totaling {
        group: 7,
        row: short(w[6]),
        status: 0,
        plus: w[7],
        minus: w[8],
    };
    at(Doing::ReadEnter {
        goal: Goal {
            register: 0,
            purpose,
        },
    })
}

fn marking(w: [u64; 11]) -> Worker {
    at(Doing::OnTime(TimeStep::MarkKeep(short(w[9]))))
}

fn reading(w: [u64; 11]) -> Worker {
    let purpose = Purpose::Marked(short(w[10]));
    at(Doing::ReadEnter {
        goal: Goal {
            register: 0,
            purpose,
        },
    })
}

// One that is idle, with a local pool.
fn pooled(w: [u64; 11]) -> Worker {
    let start = Worker::start();
    let mut pool = start.pool;
    pool.len = w[0] as usize;
    pool.slots[0] = short(w[1]);
    Worker { pool, ..start }
}

fn workers_of(w: [u64; 11]) -> [Worker; 16] {
    let s = Worker::start();
    let mut workers = [s; 16];
    workers[0] = putting(w);
    workers[1] = flushing(w);
    workers[2] = totaling(w);
    workers[3] = marking(w);
    workers[4] = pooled(w);
    workers[5] = reading(w);
    workers
}

// ---- the hub by value

// A row of totals that counts has group 7, more than there are registers: a group has no range here.
fn rows_of(e: [u64; 11]) -> [u32; 1024] {
    let mut rows = [0u32; 1024];
    rows[1] = 65536 * ((e[7] % 256) as u32) + 7;
    rows
}

fn rights_of(e: [u64; 11]) -> [u64; 64] {
    let mut rights = [0u64; 64];
    rights[1] = e[8] % 256 + 256 * (e[10] % 256);
    rights
}

fn site_of(z: [u64; 11], e: [u64; 11]) -> Site {
    Site {
        p: z[0] as usize,
        v: z[1] as usize,
        n: z[2] as usize,
        batch: (z[10] % 256) as u8,
        listed: z[8] as usize,
        rows: rows_of(e),
        granted: z[9] as usize,
        rights: rights_of(e),
    }
}

fn hub_of(x: [[u64; 11]; 3]) -> Hub {
    let z = x[0];
    let h = Hub::fresh(site_of(z, x[1]), 1);
    let window = Window {
        first: z[6] as usize,
        pools: z[4] as usize,
        from: z[7] as usize,
        queued: z[5] as usize,
    };
    let workers = workers_of(x[2]);
    Hub {
        free: z[3] as usize,
        window,
        workers,
        ..h
    }
}

// ---- what is lent beside it

// The slots as words: the fourth and the fifth of a slot are its neighbours.
fn row_of(e: [u64; 11]) -> [[u64; 6]; 2048] {
    let mut row = [[0u64; 6]; 2048];
    row[1] = [0, 0, 0, e[2], e[3], 0];
    row
}

// All zeros but for one entry of each array: a newest slot, a free one, the first queued range, the one pool, the first range of worker 1's list.
fn lent_of(z: [u64; 11], e: [u64; 11]) -> Lent {
    let mut lent = Lent::blank();
    lent.newest[1] = short(e[0]);
    lent.free[0] = short(e[1]);
    lent.queue[3 * (z[7] % 4096) as usize] = (e[4] % 65536) as u32;
    lent.lens[(z[6] % 4096) as usize] = (z[5] % 65536 + e[5] % 65536) as u32;
    lent.merged[768] = (e[6] % 65536) as u32;
    lent
}

// Whether this memory counts as set up, as the loop over the records asks it before the first.
pub fn is_ready(x: [[u64; 11]; 3]) -> bool {
    let z = x[0];
    let e = x[1];
    let hub = hub_of(x);
    let row = row_of(e);
    let long = (e[9] % 2049) as usize;
    let linked = all_versions::all_linked(&row[0..long], hub.site.n);
    let lent = lent_of(z, e);
    ready::ready(hub, &lent, linked, long)
}
