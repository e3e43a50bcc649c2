// Reads records from standard input and writes a line for each (H10). What a read brings is logged at once; the rest of a record waits for the
// next read. The first argument names the file with the list of totals, the second that with the table of rights (H10.7, H15.11). This crate owns
// the memory of the hub.
#![tactic(auto)]

use state::{Hub, Lent};
use tables::Table;

// The hub without setup: no worker, no register, no slot, and the table of rights, where it is accepted. `eachlog` has its like, which says its own
// name and lends no slot.
fn with_table<'a>(rt: &HostRuntime, row: &'a [[u64; 6]], table: &'a [u8], lent: &'a Lent) -> Hub {
    let hub = Hub::empty();
    let given = tables::give(row, hub, Table::Rights, table, lent);
    let answer = given.answer;
    // All but `Ok` is a refusal, and on memory that is not set up none but 24 is given.
    if answers::kind(answer) != 0 {
        let _ = eprintln!(rt; "hublog: the table is refused: 24");
    }
    given.hub
}

// Logs the records of standard input, with the list of totals and the table of rights.
fn log_input(rt: &HostRuntime, list: &[u8], table: &[u8]) {
    // A read brings at most 16384 records; the text has room for as many lines of 70 bytes: none is longer.
    let mut block_space = [0u8; 262144];
    let block: &mut [u8] = &mut block_space;
    let mut text_space = [0u8; 1146880];
    let text: &mut [u8] = &mut text_space;
    let mut kind_space = [0u16; 16384];
    let kinds: &mut [u16] = &mut kind_space;
    let mut number_space = [0u64; 16384];
    let numbers: &mut [u64] = &mut number_space;
    let mut lent = Lent::blank();
    // The slots, six words each.
    let mut row_space = [[0u64; 6]; 2048];
    let row: &mut [[u64; 6]] = &mut row_space;
    let mut hub = with_table(rt, row, table, &lent);
    // The number of the next record, and how many of its bytes stand at the start of the block.
    let mut first: u64 = 0;
    let mut kept: usize = 0;
    // Nothing says that the input ends, so the turns are counted, up to a number that no run reaches.
    for _ in 0..u64::MAX {
        let Ok(n) = input::read_after(rt, block, kept) else {
            let _ = eprintln!(rt; "hublog: cannot read standard input");
            return;
        };
        let ended = n == kept;
        let end = input_parts::to_log(n, ended);
        if ended & (end == 0) {
            return;
        }
        let done = logs::log_part(
            row,
            hub,
            list,
            &block[0..end],
            first,
            text,
            kinds,
            numbers,
            &mut lent,
        );
        let h = done.hub;
        hub = h;
        let used = done.used;
        if rt.write_all(&text[0..used]).is_err() {
            let _ = eprintln!(rt; "hublog: cannot write standard output");
            return;
        }
        if ended {
            return;
        }
        first = first.wrapping_add(done.count as u64);
        kept = input_parts::keep_rest(block, end, n);
    }
}

fn main(rt: HostRuntime) {
    // The list of totals: one byte more than the longest that a setup accepts.
    let mut list_space = [0u8; 4097];
    let list: &mut [u8] = &mut list_space;
    let Ok(long) = input::read_named(&rt, 1, list) else {
        let _ = eprintln!(rt; "hublog: cannot read the list of totals");
        return;
    };
    // The table of rights: one byte more than the longest that is accepted.
    let mut table_space = [0u8; 513];
    let table: &mut [u8] = &mut table_space;
    let Ok(rows) = input::read_named(&rt, 2, table) else {
        let _ = eprintln!(rt; "hublog: cannot read the table of rights");
        return;
    };
    let given_table = &table[..];
    let given_list = &list[..];
    log_input(&rt, &given_list[0..long], &given_table[0..rows]);
}
