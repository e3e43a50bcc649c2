// An example of a program over the store: two meters, and a snapshot that keeps its moment while new readings come in. It makes its
// records itself, applies them as one buffer and prints their log lines.
#![tactic(auto)]

use state::{Hub, Lent};

// Writes record k: the operation, the worker, the register and the value (H3.3 of docs/HUB.md). Past the end nothing is written.
fn write_record(out: &mut [u8], k: usize, operation: u8, worker: u8, register: u8, value: u8) {
    if out.len() / 16 <= k {
        return;
    }
    let at = 16 * k;
    out[at] = operation;
    out[at + 1] = worker;
    out[at + 2] = register;
    out[at + 8] = value;
}

// Gives the put of record k a status: 0 read, 1 estimated, 2 corrected (H16.2).
fn write_status(out: &mut [u8], k: usize, status: u8) {
    if out.len() / 16 <= k {
        return;
    }
    out[16 * k + 4] = status;
}

// Writes n steps of a worker from record k on; answers the number of the next record.
fn write_steps(out: &mut [u8], k: usize, worker: u8, n: usize) -> usize {
    let mut at = k;
    for _ in 0..n {
        write_record(out, at, 7, worker, 0, 0);
        at = at.wrapping_add(1);
    }
    at
}

// A begin and n steps of the same worker; answers the number of the next record.
fn write_operation(
    out: &mut [u8],
    k: usize,
    operation: u8,
    worker: u8,
    register: u8,
    value: u8,
    n: usize,
) -> usize {
    write_record(out, k, operation, worker, register, value);
    let next = k.wrapping_add(1);
    write_steps(out, next, worker, n)
}

fn main(rt: HostRuntime) {
    // 22 records.
    let mut space = [0u8; 352];
    let bytes: &mut [u8] = &mut space;
    // A setup: three workers, two registers, eight slots, the clock at 1.
    write_record(bytes, 0, 0, 3, 2, 1);
    bytes[4] = 8;
    // Worker 0 puts 100 on register 0 and 70 on register 1.
    let a = write_operation(bytes, 1, 1, 0, 0, 100, 3);
    let b = write_operation(bytes, a, 1, 0, 1, 70, 3);
    // Worker 1 opens a snapshot, and worker 0 puts 130 on register 0, an estimate.
    let c = write_operation(bytes, b, 2, 1, 0, 0, 2);
    let d = write_operation(bytes, c, 1, 0, 0, 130, 3);
    write_status(bytes, c, 1);
    // A get shows the newest reading, a read the one of the snapshot.
    let e = write_operation(bytes, d, 5, 0, 0, 0, 1);
    write_operation(bytes, e, 3, 1, 0, 0, 3);

    // The slots, six words each: none of them is filled yet.
    let mut row_space = [[0u64; 6]; 2048];
    let row: &mut [[u64; 6]] = &mut row_space;
    let mut lent = Lent::blank();
    let hub = Hub::empty();
    let mut kind_space = [0u16; 22];
    let kinds: &mut [u16] = &mut kind_space;
    let mut number_space = [0u64; 22];
    let numbers: &mut [u64] = &mut number_space;
    let done = records::apply_all(row, hub, &[], bytes, kinds, numbers, &mut lent);

    // 22 lines of at most 70 bytes.
    let mut text_space = [0u8; 1540];
    let text: &mut [u8] = &mut text_space;
    let used = lines::write_lines(text, 0, kinds, numbers, done.count);
    let log = &text[..];
    let _ = rt.write_all(&log[0..used]);
}
