// Memory that records left before a put could be refused by its value (H7.10): values that were put are made larger than the limit, as they would
// be had they been put at that time. First, a put leaves a version and another one begins. What is sent after that shows the stored value, ends
// the put that had begun, refuses a new one and frees the slots. Then, a total meets such a value and is refused (H12.9), and a read shows it. The
// records are those of the runs `changing` and `over` in crates/model/specs/Runs.antt, and the lines have to be their logs.
#![tactic(auto)]

use calls::Call;
use slots::Slot;
use state::{Hub, Lent};
use values::{Content, Reading};
use worker::{Doing, Worker};

// The operations, by the number in byte 0 of a record.
#[derive(Clone, Copy)]
enum Operation {
    Put = 1,
    Open = 2,
    Read = 3,
    Close = 4,
    Get = 5,
    Collect = 6,
    Step = 7,
    Total = 8,
}

// The memory that is lent with each record, and the number of the next line.
#[derive(Clone, Copy)]
struct Memory {
    hub: Hub,
    slots: [Slot; 2048],
    lent: Lent,
    line: u64,
}

// Applies a record, with a list of totals, to the memory; its line is written.
fn after_with(rt: &impl Print, m: &mut Memory, list: &[u8], rec: [u8; 16]) {
    let done = hub::call_owned(
        m.slots,
        2048,
        m.hub,
        Call::Record,
        list,
        &rec,
        &mut [],
        &mut [],
        &mut m.lent,
    );
    // Named before they are put into the memory: written straight from `done` they get no proof.
    let called = done.called;
    let row = done.slots;
    m.slots = row;
    m.hub = called.hub;
    let answer = called.answer;
    let mut text = [0u8; 70];
    let used = lines::write_answer(&mut text, m.line, answer);
    let _ = rt.write_all(&text[..used]);
    m.line = m.line.wrapping_add(1);
}

// The list is read with a setup alone.
fn after(rt: &impl Print, m: &mut Memory, rec: [u8; 16]) {
    after_with(rt, m, &[], rec);
}

// A record of this operation, worker and value, on register 0 or group 0.
fn record_of(operation: Operation, worker: u8, value: u64) -> [u8; 16] {
    let mut rec = [0; 16];
    rec[0] = operation as u8;
    rec[1] = worker;
    rec[8..].copy_from_slice(&value.to_le_bytes());
    rec
}

// Applies n steps of a worker.
fn stepped(rt: &impl Print, m: &mut Memory, worker: u8, n: u8) {
    for _ in 0..n {
        after(rt, m, record_of(Operation::Step, worker, 0));
    }
}

// Applies a record that begins an operation, and n steps of its worker.
fn sent(rt: &impl Print, m: &mut Memory, operation: Operation, worker: u8, value: u64, n: u8) {
    after(rt, m, record_of(operation, worker, value));
    stepped(rt, m, worker, n);
}

// Memory that is not set up.
fn blank() -> Memory {
    Memory {
        hub: Hub::empty(),
        slots: [slots::vacant(); 2048],
        lent: Lent::blank(),
        line: 0,
    }
}

// A value that was read.
fn read(value: u64) -> Reading {
    Reading {
        count: value,
        status: 0,
    }
}

// Puts another value into slot i.
fn stored(m: &mut Memory, i: usize, value: u64) {
    let s = m.slots[i % 2048];
    m.slots[i % 2048] = Slot {
        value: Some(read(value)),
        ..s
    };
}

// Lets worker w have begun a put of another value on register 0.
fn putting(m: &mut Memory, w: usize, value: u64) {
    let old = m.hub.workers[w % 16];
    let doing = Doing::PutPublish {
        register: 0,
        reading: read(value),
    };
    m.hub.workers[w % 16] = Worker { doing, ..old };
}

// Two workers, one register and four slots; worker 0 has put 1000000000000 into slot 1, worker 1 is about to put 1000000000001.
fn earlier(rt: &impl Print, m: &mut Memory) {
    after(rt, m, [0, 2, 1, 0, 4, 0, 0, 0, 1, 0, 0, 0, 0, 0, 0, 0]);
    sent(rt, m, Operation::Put, 0, 1, 3);
    sent(rt, m, Operation::Put, 1, 1, 0);
    stored(m, 1, 1000000000000);
    putting(m, 1, 1000000000001);
}

fn changing(rt: &impl Print) {
    let mut memory = blank();
    let m = &mut memory;
    earlier(rt, m);
    // A get and a read show the stored value.
    sent(rt, m, Operation::Get, 0, 0, 1);
    sent(rt, m, Operation::Open, 0, 0, 2);
    sent(rt, m, Operation::Read, 0, 0, 2);
    sent(rt, m, Operation::Close, 0, 0, 1);
    // The put that had begun goes on; a new one is refused.
    stepped(rt, m, 1, 3);
    sent(rt, m, Operation::Put, 0, 1000000000002, 0);
    sent(rt, m, Operation::Get, 0, 0, 1);
    // A smaller one covers the second large value, and two collects free both.
    sent(rt, m, Operation::Put, 0, 5, 9);
    sent(rt, m, Operation::Collect, 1, 0, 8);
    sent(rt, m, Operation::Collect, 1, 0, 7);
    sent(rt, m, Operation::Get, 1, 0, 1);
}

// Two workers, two registers and six slots, and a total of both registers. Worker 0 has put 1000000000000 into slot 2.
fn over(rt: &impl Print) {
    let list = [0, 0, 0, 0, 0, 0, 1, 0];
    let setup = [0, 2, 2, 0, 6, 0, 0, 0, 1, 0, 0, 0, 0, 0, 0, 0];
    let mut memory = blank();
    let m = &mut memory;
    after_with(rt, m, &list, setup);
    sent(rt, m, Operation::Put, 0, 1, 3);
    stored(m, 2, 1000000000000);
    // The total is refused at the value, its worker is idle then, and the snapshot stays open.
    sent(rt, m, Operation::Open, 1, 0, 2);
    sent(rt, m, Operation::Total, 1, 0, 3);
    sent(rt, m, Operation::Read, 1, 0, 2);
}

fn main(rt: HostRuntime) {
    changing(&rt);
    over(&rt);
}
