// One step of a worker: the place is taken apart once, here. Steps on slots, on the clock and on the announced time are done at once; put (3)
// and flush (1) to (4), which move pools, times and readers, and the change of a mark, are named for the caller.
#![tactic(auto)]

ghost use Rattle.std.specs.Prelude.{◌≡◌};
ghost use Rattle.values.specs.Meaning.{refusal_number};
ghost use Rattle.values.specs.Refusals.{number_or_0};
ghost use Rattle.versions.specs.Versions.{row_of};
ghost use Rattle.step.specs.Step.{stopped, newest_at, next_free, put_publish_step, put_stamp_step, need_of, read_enter_step, total_found_of};
ghost use Rattle.step.specs.Step.{found_of, read_stand_step, get_show_step, mark_or_stop, time_step_of, read_or_split, free_or_done, step_of};

use announcing::Outcome;
use marks::MarkNeed;
use values::{Answer, Content, Reading, Refusal};
use worker::{Announced, Doing, Goal, Purpose, Sum, TimeStep};

// A step that is taken, or one that is still to do: put (3) of a covered version; flush (1); (2), of a merged list with so many times read, and
// behind the last worker, of a merged list; (3), of a merged list with so many times read; (4), with so many ranges left; a mark gets a
// time, or none (4294967296), and the worker is done.
#[derive(Clone, Copy)]
pub enum Next {
    Taken(Outcome),
    HandIn { covered: u16 },
    Take,
    Read { merged: u16, read: u8 },
    ReadMarks { merged: u16 },
    Split { merged: u16, read: u8 },
    Free { left: u16 },
    Mark { mark: u16, time: u64 },
}

// The slot of register r's newest version; 0 where there is no such register.
fn newest_of(newest: &[u16; 256], r: u16) -> usize
    ensures { result ≡ newest_at newest.now r }
{
    let k = usize::from(r);
    if k < 256 {
        return usize::from(newest[k]);
    }
    0
}

// The free slot that is taken next, of n.
fn next_free(free: &[u16; 2048], n: usize) -> usize
    ensures { result ≡ next_free free.now n }
{
    if 0 < n {
        if n <= 2048 {
            return usize::from(free[n - 1]);
        }
        return 4294967296;
    }
    4294967296
}

// H7.5: a refusal that is met at a step sets the worker idle.
fn stopped(k: Refusal, t: Announced, clock: u32, n: usize) -> Outcome
    ensures { result ≡ stopped (refusal_number k) t clock n }
{
    announcing::outcome_of(Doing::Idle, t, clock, n, Answer::No(k.number()))
}

// Put (1).
fn put_publish(
    row: &mut [[u64; 6]],
    newest: &mut [u16; 256],
    free: &[u16; 2048],
    register: u16,
    reading: Reading,
    t: Announced,
    clock: u32,
    n: usize,
) -> Next
    ensures { record { next = result; row = row_of row.new; newest = newest.new }
        ≡ put_publish_step register reading t clock n (row_of row.old) newest.old free.now }
{
    if n == 0 {
        return Next::Taken(stopped(Refusal::NoFreeSlot, t, clock, n));
    }
    let i = newest_of(newest, register);
    let f = next_free(free, n);
    stamping::stamp(row, i, clock);
    linking::link(row, i, f, reading);
    arrays::set_short(newest, usize::from(register), f);
    let covered = (i % 65536) as u16;
    let place = Doing::PutStamp { register, covered };
    Next::Taken(announcing::outcome_of(place, t, clock, n - 1, Answer::Going))
}

// Put (2).
fn put_stamp(
    row: &mut [[u64; 6]],
    newest: &[u16; 256],
    register: u16,
    covered: u16,
    t: Announced,
    clock: u32,
    n: usize,
) -> Next
    ensures { record { next = result; row = row_of row.new; newest = newest.now }
        ≡ put_stamp_step register covered t clock n (row_of row.old) newest.now }
{
    let c = versions::load(row, usize::from(covered));
    let place = Doing::PutHandIn { register, covered };
    if c.high == 4294967296 {
        stamping::stamp(row, newest_of(newest, register), clock);
        return Next::Taken(announcing::outcome_of(place, t, clock, n, Answer::Going));
    }
    Next::Taken(announcing::outcome_of(place, t, clock, n, Answer::Going))
}

// What a read asks of a mark.
fn need_for(x: Purpose) -> MarkNeed
    ensures { result ≡ need_of x }
{
    match x {
        Purpose::Single => MarkNeed::Nothing,
        Purpose::Marked(m) => MarkNeed::Held(m),
        Purpose::Totaling { .. } => MarkNeed::Nothing,
    }
}

// Read (1).
fn read_enter<'a>(
    row: &mut [[u64; 6]],
    newest: &[u16; 256],
    goal: Goal,
    t: Announced,
    clock: u32,
    n: usize,
    marks: &'a [u64; 12],
    reading: &'a [u8],
) -> Next
    ensures { record { next = result; row = row_of row.new; newest = newest.now }
        ≡ read_enter_step goal t clock n (row_of row.old) newest.now marks.now reading.now }
{
    let purpose = goal.purpose;
    match marks::check(need_for(purpose), marks, reading) {
        Err(k) => Next::Taken(stopped(k, t, clock, n)),
        Ok(()) => {
            let i = newest_of(newest, goal.register);
            stamping::stamp(row, i, clock);
            let slot = (i % 65536) as u16;
            let place = Doing::ReadStand { goal, slot };
            Next::Taken(announcing::outcome_of(place, t, clock, n, Answer::Going))
        }
    }
}

// A total that found x for row i.
fn total_found(
    group: u16,
    i: u16,
    sum: Sum,
    x: Content,
    t: Announced,
    clock: u32,
    n: usize,
    rows: &[u32],
) -> Outcome
    ensures { result ≡ total_found_of group i sum x t clock n rows.now }
{
    if total_sums::count_of(x) <= 999999999999 {
        let more = total_sums::sum_with(sum, total_rows::row_at(rows, usize::from(i)), x);
        if total_rows::goes_on(rows, group, i) {
            let goal = total_rows::goal_at(rows, group, usize::from(i) + 1, more);
            let place = Doing::ReadEnter { goal };
            return announcing::outcome_of(place, t, clock, n, Answer::Going);
        }
        let answer = showing::signed(more);
        return announcing::outcome_of(Doing::Idle, t, clock, n, answer);
    }
    stopped(Refusal::TotalTooLarge, t, clock, n)
}

// What follows where the version that the time needs holds x.
fn found(purpose: Purpose, x: Content, t: Announced, clock: u32, n: usize, rows: &[u32]) -> Outcome
    ensures { result ≡ found_of purpose x t clock n rows.now }
{
    match purpose {
        Purpose::Single => announcing::outcome_of(Doing::Idle, t, clock, n, showing::answer_for(x)),
        Purpose::Marked(_) => announcing::outcome_of(
            Doing::Idle,
            t,
            clock,
            n,
            showing::answer_for(x),
        ),
        Purpose::Totaling {
            group,
            row,
            status,
            plus,
            minus,
        } => {
            let sum = Sum {
                plus,
                minus,
                status,
            };
            total_found(group, row, sum, x, t, clock, n, rows)
        }
    }
}

// Read (2).
fn read_stand(
    row: &[[u64; 6]],
    goal: Goal,
    slot: u16,
    t: Announced,
    clock: u32,
    n: usize,
    rows: &[u32],
    marks: &[u64; 12],
) -> Outcome
    ensures { result ≡ read_stand_step goal slot t clock n (row_of row.now) rows.now marks.now }
{
    let v = versions::load(row, usize::from(slot));
    let purpose = goal.purpose;
    if v.low <= marks::time_for(purpose, t, marks) {
        let x = v.value;
        return found(purpose, x, t, clock, n, rows);
    }
    let older = (v.older % 65536) as u16;
    let place = Doing::ReadStand { goal, slot: older };
    announcing::outcome_of(place, t, clock, n, Answer::Going)
}

// Get.
fn get_show(
    row: &mut [[u64; 6]],
    newest: &[u16; 256],
    register: u16,
    t: Announced,
    clock: u32,
    n: usize,
) -> Next
    ensures { record { next = result; row = row_of row.new; newest = newest.now }
        ≡ get_show_step register t clock n (row_of row.old) newest.now }
{
    let i = newest_of(newest, register);
    let v = versions::load(row, i);
    stamping::stamp(row, i, clock);
    let x = v.value;
    Next::Taken(announcing::outcome_of(Doing::Idle, t, clock, n, showing::answer_for(x)))
}

// A mark gets a time, or none, unless what is asked of it is refused.
fn mark_or_stop(
    asked: Result<(), Refusal>,
    mark: u16,
    time: u64,
    t: Announced,
    clock: u32,
    n: usize,
) -> Next
    ensures { result ≡ mark_or_stop (number_or_0 asked) mark time t clock n }
{
    match asked {
        Ok(()) => Next::Mark { mark, time },
        Err(k) => Next::Taken(stopped(k, t, clock, n)),
    }
}

// A step that moves a time: open, close, mark, release.
fn time_step<'a>(
    y: TimeStep,
    t: Announced,
    clock: u32,
    n: usize,
    marks: &'a [u64; 12],
    reading: &'a [u8],
) -> Next
    ensures { result ≡ time_step_of y t clock n marks.now reading.now }
{
    match y {
        TimeStep::OpenAnnounce => Next::Taken(announcing::open_announce(t, clock, n)),
        TimeStep::OpenPass => Next::Taken(announcing::open_pass(t, clock, n)),
        TimeStep::CloseWithdraw => Next::Taken(announcing::close_withdraw(clock, n)),
        TimeStep::MarkKeep(m) => {
            let asked = marks::check(MarkNeed::Empty(m), marks, reading);
            mark_or_stop(asked, m, worker::time_of(t), t, clock, n)
        }
        TimeStep::MarkRelease(m) => {
            let asked = marks::check(MarkNeed::Unread(m), marks, reading);
            mark_or_stop(asked, m, 4294967296, t, clock, n)
        }
    }
}

// Flush (2) while times are left to read: of a worker, and behind the last worker of all marks. Then (3).
fn read_or_split(merged: u16, read: u8, p: usize) -> Next
    ensures { result ≡ read_or_split merged read p }
{
    let k = read as usize;
    if k < p {
        return Next::Read { merged, read };
    }
    if k == p {
        return Next::ReadMarks { merged };
    }
    Next::Split { merged, read }
}

// Flush (4) while ranges are left, then (5).
fn free_or_done(left: u16, t: Announced, clock: u32, n: usize) -> Next
    ensures { result ≡ free_or_done left t clock n }
{
    if left == 0 {
        return Next::Taken(announcing::outcome_of(Doing::Idle, t, clock, n, Answer::Done));
    }
    Next::Free { left }
}

// A step of a worker at the place d with the announced time t, of p workers, with n slots free. `reading` says which mark each worker
// reads.
pub fn step<'a>(
    row: &mut [[u64; 6]],
    newest: &mut [u16; 256],
    free: &[u16; 2048],
    d: Doing,
    t: Announced,
    clock: u32,
    n: usize,
    p: usize,
    rows: &'a [u32],
    marks: &'a [u64; 12],
    reading: &'a [u8],
) -> Next
    ensures { record { next = result; row = row_of row.new; newest = newest.new }
        ≡ step_of d t clock n p (row_of row.old) newest.old free.now rows.now
        marks.now
        reading.now }
{
    // By a match and not by closures: a place is a value in lent memory, of which the theorem speaks.
    match d {
        Doing::Idle => Next::Taken(stopped(Refusal::Idle, t, clock, n)),
        Doing::PutPublish { register, reading } => {
            put_publish(row, newest, free, register, reading, t, clock, n)
        }
        Doing::PutStamp { register, covered } => {
            put_stamp(row, newest, register, covered, t, clock, n)
        }
        Doing::PutHandIn {
            register: _,
            covered,
        } => Next::HandIn { covered },
        Doing::FlushTake => Next::Take,
        Doing::FlushRead { merged, read } => read_or_split(merged, read, p),
        Doing::FlushFree { left } => free_or_done(left, t, clock, n),
        Doing::OnTime(y) => time_step(y, t, clock, n, marks, reading),
        Doing::ReadEnter { goal } => { read_enter(row, newest, goal, t, clock, n, marks, reading) }
        Doing::ReadStand { goal, slot } => {
            Next::Taken(read_stand(row, goal, slot, t, clock, n, rows, marks))
        }
        Doing::GetShow { register } => get_show(row, newest, register, t, clock, n),
    }
}
