// A turn: what one record does to lent memory, and what it leaves to the loop, which holds the workers' records. What is lent and what runs of
// the hub are changed here; the worker's place, its announced time and its pool are the loop's.
#![tactic(auto)]

ghost use Rattle.std.specs.Prelude.{◌≡◌, ◌+◌, ◌<◌, ◌≤◌, ◌%◌, length, set, take};
ghost use Rattle.values.specs.declared.Answer.TheVariants.{Going, Done};
ghost use Rattle.arrays.specs.Arrays.{short};
ghost use Rattle.queue.specs.State.{pools_in, taken, rest};
ghost use Rattle.worker.specs.declared.Doing.TheVariants.{Idle, FlushRead};
ghost use Rattle.flush.specs.Flush.{handed_on};
ghost use Rattle.freeing.specs.Freeing.{freed_step, freed_row, freed_free};
ghost use Rattle.turns.specs.declared.Arm.TheVariants.{Sets};
ghost use Rattle.versions.specs.Versions.{row_of};
ghost use Rattle.turns.specs.Parts.{parts, with_free, with_window, with_count, with_times, with_marks};
ghost use Rattle.turns.specs.Turns.{left_to, taken_turn, hand_turn, read_turn, split_turn, free_turn, made_turn, ran_on, took_merged, marks_read, go_turn, turn_of};

use announcing::Outcome;
use answers::Said;
use gate::{Gate, Known};
use rights::Tables;
use state::Lent;
use step::Next;
use values::{Answer, Window};
use worker::{Announced, Doing, Worker};

// What changes of the hub by value while records are applied, but for the workers: a turn changes it where it lies.
#[derive(Clone, Copy)]
pub struct Running {
    pub clock: u32,
    // How many slots are free.
    pub free: usize,
    // Where the queue lies in its memory.
    pub window: Window,
    pub times: [u64; 448],
    pub marks: [u64; 12],
    pub reading: [u8; 16],
}

// The sizes and the clock of a setup that is accepted.
#[derive(Clone, Copy)]
pub struct Sizes {
    pub p: u8,
    pub v: u16,
    pub n: u16,
    pub clock: u32,
}

// What the loop does once the answer is put: nothing; the worker's place is set; its place and announced time; flush (2), the place, and another
// worker's time is read; a setup; put (3), the place, and a range more in the pool; flush (3); flush (4), the place, and reads move off a slot.
// No data in its cases: with it a record took 51 instructions more, 501 for 450, since the cases lie over each other.
#[derive(Clone, Copy)]
pub enum Arm {
    Says,
    Sets,
    Times,
    Reads,
    Makes,
    HandsIn,
    Splits,
    Moves,
}

const NO_SIZES: Sizes = Sizes {
    p: 0,
    v: 0,
    n: 0,
    clock: 0,
};

// What a record leaves to the loop: what it does, the worker's next place, its announced time, and the answer; of put (3) the range and how many
// the pool has then; of flush (4) the slot and its older neighbour; of flush (2) and (3) how many ranges are merged and how many times are read; and
// a setup's sizes. What an arm does not use is 0.
#[derive(Clone, Copy)]
pub struct Turn {
    pub arm: Arm,
    pub doing: Doing,
    pub announced: Announced,
    pub said: Said,
    pub slot: u16,
    pub older: u16,
    pub low: u32,
    pub high: u32,
    pub len: usize,
    pub merged: u16,
    pub read: u8,
    pub sizes: Sizes,
}

// What a record is decided by besides lent memory: whether the memory counts as set up, and what a setup fixed, as numbers.
#[derive(Clone, Copy)]
pub struct Fixed {
    pub up: bool,
    pub p: usize,
    pub v: usize,
    pub batch: u8,
    pub listed: usize,
    pub granted: usize,
}

// A turn with an arm, a place and an answer.
fn left_to(arm: Arm, doing: Doing, answer: Answer) -> Turn
    ensures { result ≡ left_to arm doing answer }
{
    let said = answers::say(answer);
    Turn {
        arm,
        doing,
        announced: None,
        said,
        slot: 0,
        older: 0,
        low: 0,
        high: 0,
        len: 0,
        merged: 0,
        read: 0,
        sizes: NO_SIZES,
    }
}

// A setup that is accepted: the loop is left for it.
fn made(p: u8, v: u16, n: u16, clock: u32) -> Turn
    ensures { result ≡ made_turn p v n clock }
{
    let sizes = Sizes { p, v, n, clock };
    let t = left_to(Arm::Makes, Doing::Idle, Answer::Ok);
    Turn { sizes, ..t }
}

// ---- steps

// A step that is done at once.
fn taken(running: &mut Running, w: usize, d: Doing, o: Outcome) -> Turn
    requires { w < 16 }
    ensures value { result ≡ taken_turn o }
    ensures running_after { running.new ≡ ran_on running.old w d o }
{
    running.clock = o.clock;
    running.free = o.free;
    let old = running.reading[w];
    running.reading[w] = marks::read_next(d, o.doing, old);
    let t = left_to(Arm::Times, o.doing, o.answer);
    Turn {
        announced: o.announced,
        ..t
    }
}

// Put (3), of a pool of n ranges.
fn hand_in(row: &[[u64; 6]], n: usize, covered: u16, size: u8) -> Turn
    ensures { result ≡ hand_turn covered (handed_on (row_of row.now) n covered size) }
{
    let h = flush::put_hand_in(row, n, covered, size);
    let doing = h.doing;
    let answer = h.answer;
    let t = left_to(Arm::HandsIn, doing, answer);
    Turn {
        slot: covered,
        low: h.low,
        high: h.high,
        len: h.len,
        ..t
    }
}

// Flush (1).
fn take(lent: &mut Lent, running: &mut Running, w: usize) -> Turn
    requires { w < 16 }
    ensures value { result
        ≡ left_to Sets (FlushRead (short (length (taken (pools_in lent.old.queue lent.old.lens running.old.window)))) 0) Going }
    ensures pools_after { pools_in lent.new.queue lent.new.lens running.new.window
        ≡ rest (pools_in lent.old.queue lent.old.lens running.old.window) }
    ensures running_after { running.new ≡ with_window running.old running.new.window }
    ensures merged_after { lent.new.merged
        ≡ took_merged (pools_in lent.old.queue lent.old.lens running.old.window) lent.old.merged w }
    ensures lent_kept { (lent.new.newest ≡ lent.old.newest) × (lent.new.free ≡ lent.old.free) }
{
    let met = running.window;
    let f = flush::flush_take(&mut lent.queue, &mut lent.lens, met, &mut lent.merged, w);
    running.window = f.window;
    let merged = (f.count % 65536) as u16;
    left_to(
        Arm::Sets,
        Doing::FlushRead { merged, read: 0 },
        Answer::Going,
    )
}

// Flush (2), with so many times read: the loop reads one more.
fn read_time(m: u16, read: u8) -> Turn
    ensures { result ≡ read_turn m read }
{
    let t = left_to(
        Arm::Reads,
        Doing::FlushRead {
            merged: m,
            read: read % 255 + 1,
        },
        Answer::Going,
    );
    Turn {
        merged: m,
        read,
        ..t
    }
}

// Flush (2), behind the last of p workers: the times of all marks.
fn read_marks(running: &mut Running, w: usize, p: usize, m: u16) -> Turn
    requires { w < 16 }
    ensures value { result ≡ left_to Sets (FlushRead m ((p % 256 + 12) % 256)) Going }
    ensures running_after { running.new ≡ with_times running.old (marks_read running.old.times w p running.old.marks) }
{
    if p <= 16 {
        mark_times::read_all(&mut running.times, w, p, &running.marks);
    }
    let read = ((p % 256 + 12) % 256) as u8;
    left_to(
        Arm::Sets,
        Doing::FlushRead { merged: m, read },
        Answer::Going,
    )
}

// Flush (3), by so many times: the loop has the pool.
fn split(m: u16, read: u8) -> Turn
    ensures { result ≡ split_turn m read }
{
    let t = left_to(Arm::Splits, Doing::Idle, Answer::Going);
    Turn {
        merged: m,
        read,
        ..t
    }
}

// Flush (4), with so many ranges left.
fn free_one(
    row: &mut [[u64; 6]],
    lent: &mut Lent,
    running: &mut Running,
    w: usize,
    left: u16,
) -> Turn
    requires { (w < 16) × (0 < left) }
    ensures value { result ≡ free_turn left (freed_step (row_of row.old) lent.old.merged w left running.old.free) }
    ensures row_after { row_of row.new ≡ freed_row (row_of row.old) lent.old.merged w left }
    ensures lent_after { lent.new
        ≡ with_free lent.old (freed_free lent.old.free lent.old.merged w left running.old.free) }
    ensures running_after { running.new
        ≡ with_count running.old (freed_step (row_of row.old) lent.old.merged w left running.old.free).free }
{
    let f = freeing::flush_free(row, &mut lent.free, &lent.merged, w, left, running.free);
    running.free = f.free;
    let t = left_to(
        Arm::Moves,
        Doing::FlushFree { left: left - 1 },
        Answer::Freed(f.slot),
    );
    Turn {
        slot: f.slot,
        older: f.older,
        ..t
    }
}

// Mark and release: the mark holds this time, or none (4294967296).
fn set_mark(running: &mut Running, mark: u16, time: u64) -> Turn
    ensures value { result ≡ left_to Sets Idle Done }
    ensures running_after { running.new ≡ with_marks running.old (set running.old.marks (mark % 12) time) }
{
    let i = (mark % 12) as usize;
    running.marks[i] = time;
    left_to(Arm::Sets, Doing::Idle, Answer::Done)
}

// The first n of them, which count; all where there are fewer.
fn counting<T>(all: &[T], n: usize) -> &[T]
    ensures same { result.now ≡ take n all.now }
    ensures few { length result.now ≤ length all.now }
{
    &all[..n.min(all.len())]
}

// A step of worker w, whose record is x.
fn go(
    row: &mut [[u64; 6]],
    lent: &mut Lent,
    running: &mut Running,
    w: usize,
    x: &Worker,
    fixed: Fixed,
    rows: &[u32; 1024],
) -> Turn
    requires { w < 16 }
    ensures { record { turn = result; parts = parts (row_of row.new) lent.new running.new }
        ≡ go_turn fixed w x.now.doing x.now.announced x.now.pool.len rows.now (parts (row_of row.old) lent.old running.old) }
{
    let d = x.doing;
    let s = step::step(
        row,
        &mut lent.newest,
        &lent.free,
        d,
        x.announced,
        running.clock,
        running.free,
        fixed.p,
        counting(rows, fixed.listed),
        &running.marks,
        counting(&running.reading, fixed.p),
    );
    // By a match and not by closures: what is left of a step is a value, of which the contract speaks.
    match s {
        Next::Taken(o) => taken(running, w, d, o),
        Next::HandIn { covered } => hand_in(row, x.pool.len, covered, fixed.batch),
        Next::Take => take(lent, running, w),
        Next::Read { merged: m, read } => read_time(m, read),
        Next::ReadMarks { merged: m } => read_marks(running, w, fixed.p, m),
        Next::Split { merged, read } => split(merged, read),
        Next::Free { left } => free_one(row, lent, running, w, left),
        Next::Mark { mark, time } => set_mark(running, mark, time),
    }
}

// A turn of worker w, modulo sixteen, whose record is x: what is done with the record of the input.
pub fn take_turn<'a>(
    row: &mut [[u64; 6]],
    lent: &mut Lent,
    running: &mut Running,
    rec: &'a [u8],
    w: usize,
    x: &'a Worker,
    fixed: Fixed,
    list: &'a [u8],
    rows: &'a [u32; 1024],
    rights: &'a [u64; 64],
) -> Turn
    ensures { record { turn = result; parts = parts (row_of row.new) lent.new running.new }
        ≡ turn_of fixed (w % 16) x.now.doing x.now.announced x.now.pool.len list.now rows.now rights.now rec.now
        (parts (row_of row.old) lent.old running.old) }
{
    let tables = Tables {
        v: fixed.v,
        rows: counting(rows, fixed.listed),
        rights: counting(rights, fixed.granted),
    };
    let known = Known {
        tables,
        doing: x.doing,
        announced: x.announced,
        marks: &running.marks,
        reading: counting(&running.reading, fixed.p),
    };
    let r = record::decode(rec);
    match decision::gate_for(r, fixed.up, fixed.p, row.len(), list, known) {
        Err(k) => left_to(Arm::Says, Doing::Idle, Answer::No(k.number())),
        Ok(gate) => match gate {
            Gate::Make { p, v, n, clock } => made(p, v, n, clock),
            Gate::Start { worker: _, doing } => left_to(Arm::Sets, doing, Answer::Ok),
            Gate::Go { worker: _ } => go(row, lent, running, w % 16, x, fixed, rows),
        },
    }
}
