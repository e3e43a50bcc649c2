// The loop over the records. It owns the hub while it runs, so that a record moves only what its step names; everything else is lent. The
// slots are a lent row of words. Every public call goes through it.
#![tactic(auto)]

ghost use Rattle.std.specs.Prelude.{◌≡◌, ◌+◌, ◌*◌, ◌<◌, ◌≤◌, min, true, length, map, slice_set};
ghost use Rattle.model.specs.Rules.{of_totals};
ghost use Rattle.versions.specs.Versions.{row_of};
ghost use Rattle.simulation.specs.Lent.{lent_memory};
ghost use Rattle.simulation.specs.Shell.{off_worker};
ghost use Rattle.simulation.specs.Records.{record_at};
ghost use Rattle.pools.specs.Placed.{placed};
ghost use Rattle.worker.specs.Rep.{time_of};
ghost use Rattle.turns.specs.Parts.{parts};
ghost use Rattle.hub_core.specs.Sized.{RanSized};
ghost use Rattle.hub_core.specs.Stretch.{site_of, memory_of, state_with, Went, RestRefused};

use answers::Said;
use state::{Hub, Lent};
use turns::{Arm, Fixed, Running, Sizes, Turn};
use values::{Answer, Refusal};
use worker::{Announced, Doing, Worker};

// Record k of the bytes, which has all sixteen.
fn record_at(bytes: &[u8], k: usize) -> &[u8]
    requires { 16 * k + 16 ≤ length bytes.now }
    ensures { (result.now ≡ record_at bytes.now k) × (length result.now ≡ 16) }
{
    let from = 16 * k;
    let end = from + 16;
    &bytes[from..end]
}

// The answer to record k: its kind and its number at k.
fn put_answer(kinds: &mut [u16], numbers: &mut [u64], k: usize, y: Said) -> Answer
    requires { (k < length kinds.old) × (k < length numbers.old) }
    ensures value { result ≡ y.answer }
    ensures kinds_after { kinds.new ≡ slice_set kinds.old k y.kind }
    ensures numbers_after { numbers.new ≡ slice_set numbers.old k y.number }
{
    kinds[k] = y.kind;
    numbers[k] = y.number;
    let answer = y.answer;
    answer
}

// Flush (2): the time that worker w reads of another, at place j of its times.
fn keep_time(times: &mut [u64; 448], w: usize, j: usize, t: Announced)
    requires { (w < 16) × (j < 16) }
    ensures { times.new ≡ slice_set times.old (28 * w + j) (time_of t) }
{
    let at = 28 * w + j;
    times[at] = worker::time_of(t);
}

// Put (3): the worker at its next place, with a range more in its pool.
fn handed(y: Worker, t: Turn) -> Worker
    ensures { result
        ≡ record {
          doing = t.doing;
          announced = y.announced;
          pool = record {
            slots = placed y.pool.slots y.pool.len t.slot;
            lows = placed y.pool.lows y.pool.len t.low;
            highs = placed y.pool.highs y.pool.len t.high;
            len = t.len;
          };
        } }
{
    let mut pool = y.pool;
    let at = pool.len;
    pools::put(&mut pool.slots, at, t.slot);
    pools::put(&mut pool.lows, at, t.low);
    pools::put(&mut pool.highs, at, t.high);
    pool.len = t.len;
    let doing = t.doing;
    Worker { doing, pool, ..y }
}

// Flush (4). H5.27: the reads of all workers move off the freed slot.
fn move_off(workers: &mut [Worker; 16], slot: u16, older: u16)
    ensures { workers.new ≡ map (off_worker slot older) workers.old }
{
    for y in workers.iter_mut() {
        if standing::stands_on(y.doing, slot) {
            y.doing = standing::off(y.doing, slot, older);
        }
    }
}

// What a part of the records leaves: the workers, before which record it ended, the sizes of a setup that is accepted where the one before that is
// one, and the last answer.
#[derive(Clone, Copy)]
struct Part {
    workers: [Worker; 16],
    at: usize,
    made: Option<Sizes>,
    last: Answer,
}

// Applies the records from `from` on, until `count` or until a setup is accepted, which is left to the caller.
fn run_lent<'a>(
    row: &mut [[u64; 6]],
    start: [Worker; 16],
    fixed: Fixed,
    first: Answer,
    list: &[u8],
    rows: &'a [u32; 1024],
    rights: &'a [u64; 64],
    bytes: &[u8],
    from: usize,
    count: usize,
    kinds: &mut [u16],
    numbers: &mut [u64],
    lent: &mut Lent,
    running: &mut Running,
) -> Part
    requires { (fixed.up ≡ true → fixed.p ≤ 16) × (count ≤ length kinds.old) × (count ≤ length numbers.old)
        × (from ≤ count) × (16 * count ≤ length bytes.now) }
    ensures { Went (of_totals list.now) bytes.now from count result.at result.made
        (λ n. state_with fixed.up
        (memory_of (site_of fixed n rows.now rights.now) start
        (parts (row_of row.old) lent.old running.old))
        kinds.old numbers.old first)
        (λ n. state_with fixed.up
        (memory_of (site_of fixed n rows.now rights.now) result.workers
        (parts (row_of row.new) lent.new running.new))
        kinds.new numbers.new result.last) }
{
    let mut workers = start;
    let mut last = first;
    // Space that a flush's split works in, cleared once.
    let mut needed = [0u32; 768];
    let mut local = [0u32; 192];
    let mut joined = [0u32; 960];
    // No `for`: it would go on behind the match, and all its cases would be proved as one.
    let mut k = from;
    while k < count {
        let rec = record_at(bytes, k);
        // The record that is looked at is the worker's own where there are more than w workers; elsewhere it does not matter.
        let w = usize::from(rec[1]) % 16;
        let t = turns::take_turn(
            row,
            lent,
            running,
            rec,
            w,
            &workers[w],
            fixed,
            list,
            rows,
            rights,
        );
        last = put_answer(kinds, numbers, k, t.said);
        k += 1;
        let doing = t.doing;
        // By a match and not by closures: each arm changes another part of what is lent.
        match t.arm {
            Arm::Says => {}
            Arm::Sets => {
                let y = workers[w];
                workers[w] = Worker { doing, ..y };
            }
            Arm::Times => {
                let y = workers[w];
                let announced = t.announced;
                workers[w] = Worker {
                    doing,
                    announced,
                    ..y
                };
            }
            // Flush (2).
            Arm::Reads => {
                let j = usize::from(t.read) % 16;
                let z = workers[j];
                keep_time(&mut running.times, w, j, z.announced);
                let y = workers[w];
                workers[w] = Worker { doing, ..y };
            }
            Arm::Makes => {
                return Part {
                    workers,
                    at: k,
                    made: Some(t.sizes),
                    last,
                };
            }
            // Put (3). The pool is taken and put back by value.
            Arm::HandsIn => {
                let y = workers[w];
                workers[w] = handed(y, t);
            }
            // Flush (3).
            Arm::Splits => {
                let y = workers[w];
                let pool = y.pool;
                let f = splitting::flush_split(
                    &mut lent.queue,
                    &mut lent.lens,
                    running.window,
                    &mut lent.merged,
                    w,
                    t.merged,
                    &running.times,
                    usize::from(t.read),
                    fixed.batch,
                    pool,
                    &mut needed,
                    &mut local,
                    &mut joined,
                );
                running.window = f.window;
                workers[w] = Worker {
                    doing: Doing::FlushFree { left: f.left },
                    pool: worker::EMPTY,
                    ..y
                };
            }
            // Flush (4).
            Arm::Moves => {
                let y = workers[w];
                workers[w] = Worker { doing, ..y };
                move_off(&mut workers, t.slot, t.older);
            }
        }
    }
    Part {
        workers,
        at: count,
        made: None,
        last,
    }
}

// What a stretch of the records leaves of the hub by value, before which record it ended, the sizes of a setup that is accepted where the one before
// that is one, and the last answer.
#[derive(Clone, Copy)]
struct Stretch {
    hub: Hub,
    at: usize,
    made: Option<Sizes>,
    last: Answer,
}

// The same on a hub by value: it is taken apart into what is lent, and put together again.
fn run_stretch(
    row: &mut [[u64; 6]],
    start: Hub,
    up: bool,
    first: Answer,
    list: &[u8],
    bytes: &[u8],
    from: usize,
    count: usize,
    kinds: &mut [u16],
    numbers: &mut [u64],
    lent: &mut Lent,
) -> Stretch
    requires { (up ≡ true → start.site.p ≤ 16) × (count ≤ length kinds.old) × (count ≤ length numbers.old)
        × (from ≤ count) × (16 * count ≤ length bytes.now) }
    ensures went { Went (of_totals list.now) bytes.now from count result.at result.made
        (λ _. state_with up
        (lent_memory start (row_of row.old) lent.old)
        kinds.old numbers.old first)
        (λ _. state_with up
        (lent_memory result.hub (row_of row.new) lent.new)
        kinds.new numbers.new result.last) }
    ensures site_value { result.hub.site ≡ start.site }
{
    let site = start.site;
    let fixed = Fixed {
        up,
        p: site.p,
        v: site.v,
        batch: site.batch,
        listed: site.listed,
        granted: site.granted,
    };
    let times = start.times;
    let marks = start.marks;
    let reading = start.reading;
    let mut running = Running {
        clock: start.clock,
        free: start.free,
        window: start.window,
        times,
        marks,
        reading,
    };
    let before = start.workers;
    let e = run_lent(
        row,
        before,
        fixed,
        first,
        list,
        &site.rows,
        &site.rights,
        bytes,
        from,
        count,
        kinds,
        numbers,
        lent,
        &mut running,
    );
    let times = running.times;
    let marks = running.marks;
    let reading = running.reading;
    let workers = e.workers;
    let hub = Hub {
        site,
        clock: running.clock,
        free: running.free,
        window: running.window,
        times,
        marks,
        reading,
        workers,
    };
    Stretch {
        hub,
        at: e.at,
        made: e.made,
        last: e.last,
    }
}

// Behind the whole records: each of fewer than sixteen bytes gets 6, which changes nothing else. What is answered last.
fn refuse_rest(
    kinds: &mut [u16],
    numbers: &mut [u64],
    from: usize,
    count: usize,
    first: Answer,
) -> Answer
    requires { (from ≤ count) × (count ≤ length kinds.old) × (count ≤ length numbers.old) }
    ensures { RestRefused from count kinds.old numbers.old first kinds.new numbers.new result }
{
    let said = answers::say(Answer::No(Refusal::CutOff.number()));
    let mut last = first;
    // By index: an answer goes into two rows.
    for k in from..count {
        last = put_answer(kinds, numbers, k, said);
    }
    last
}

// What is left of the hub by value, and the answer to the last record; `Ok` where there was none.
#[derive(Clone, Copy)]
pub struct Ended {
    pub hub: Hub,
    pub last: Answer,
}

// Applies the first `count` records of the bytes, or as many as there is room for answers, with the list of totals lent: the kind and the number of
// answer k stand at k.
pub fn run(
    row: &mut [[u64; 6]],
    start: Hub,
    list: &[u8],
    bytes: &[u8],
    count: usize,
    kinds: &mut [u16],
    numbers: &mut [u64],
    lent: &mut Lent,
) -> Ended
    ensures { RanSized
        (lent_memory start (row_of row.old) lent.old)
        (of_totals list.now) bytes.now kinds.old numbers.old
        (min count (min (length kinds.old) (length numbers.old)))
        (lent_memory result.hub (row_of row.new) lent.new)
        kinds.new numbers.new result.last }
{
    // Where an array is lent as a slice, the proof learns how long it is.
    let newest_long: &[u16] = &lent.newest;
    let free_long: &[u16] = &lent.free;
    let queue_long: &[u32] = &lent.queue;
    let lens_long: &[u32] = &lent.lens;
    let merged_long: &[u32] = &lent.merged;
    let linked = all_versions::all_linked(row, start.site.n);
    let mut up = ready::ready(start, lent, linked, row.len());
    let room = kinds.len().min(numbers.len());
    let most = count.min(room);
    let whole = (bytes.len() / 16).min(most);
    let mut hub = start;
    let mut last = Answer::Ok;
    let mut k: usize = 0;
    // No `for`: a stretch says where it ends.
    while k < whole {
        let e = run_stretch(
            row, hub, up, last, list, bytes, k, whole, kinds, numbers, lent,
        );
        k = e.at;
        last = e.last;
        match e.made {
            Some(z) => {
                hub = setup::set_up(
                    e.hub,
                    row,
                    &mut lent.newest,
                    &mut lent.free,
                    list,
                    z.p,
                    z.v,
                    z.n,
                    z.clock,
                );
                up = true;
            }
            None => {
                hub = e.hub;
            }
        }
    }
    let answer = refuse_rest(kinds, numbers, whole, most, last);
    Ended { hub, last: answer }
}
