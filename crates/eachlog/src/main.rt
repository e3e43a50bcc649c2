// The log of the records on standard input, as `hublog` writes it, with one call of `hub::call_owned` for each record. The arguments say how many
// slots the lent row has (2048 without one), and from which record on it has another number of them: eachlog [SLOTS [RECORD SLOTS [LIST [TABLE]]]].
// LIST names the file with the list of totals, TABLE that with the table of rights.
#![tactic(auto)]

ghost use Rattle.std.specs.Prelude.{◌≤◌};

use calls::Call;
use state::{Hub, Lent};
use std::rt::Env;
use tables::Table;
use values::Answer;

// The number with one decimal digit more, at most 100000000; other bytes change nothing, so this is not `parse`.
fn with_digit(x: usize, b: u8) -> usize
    ensures { result ≤ 100000000 }
{
    if x >= 10000000 {
        return 100000000;
    }
    if !b.is_ascii_digit() {
        return x;
    }
    10 * x + usize::from(b - b'0')
}

// Argument i as a number; `other` where there is none.
fn argument(rt: &impl Env, i: usize, other: usize) -> usize {
    let mut buf = [0u8; 20];
    match rt.arg(i, &mut buf) {
        Ok(0) | Err(_) => other,
        Ok(n) => buf[..n].iter().fold(0, |x, b| with_digit(x, *b)),
    }
}

// Writes the line of record k with this answer to standard output; answers whether it was written.
fn write_answer(rt: &impl Print, k: u64, answer: Answer) -> bool {
    let mut text = [0u8; 70];
    let used = lines::write_answer(&mut text, k, answer);
    rt.write_all(&text[..used]).is_ok()
}

// A hub with no worker, no register and no slot, to which the table was given. Such memory counts as not set up whatever is lent beside it, so that
// no slot and zeros are lent.
fn hub_with(rt: &HostRuntime, table: &[u8]) -> Hub {
    let lent = Lent::blank();
    let hub = Hub::empty();
    let given = tables::give(&[], hub, Table::Rights, table, &lent);
    // All but `Ok` is a refusal, and on memory that is not set up none but 24 is given.
    if answers::kind(given.answer) != 0 {
        let _ = eprintln!(rt; "eachlog: the table is refused: 24");
    }
    given.hub
}

fn main(rt: HostRuntime) {
    let long = argument(&rt, 1, 2048);
    let at = argument(&rt, 2, 100000000);
    let later = argument(&rt, 3, 2048);
    let mut rec = [0u8; 16];
    let mut lent = Lent::blank();
    // The list of totals: one byte more than the longest that a setup accepts.
    let mut list = [0u8; 4097];
    let Ok(end) = input::read_named(&rt, 4, &mut list) else {
        let _ = eprintln!(rt; "eachlog: cannot read the list of totals");
        return;
    };
    // The table of rights: one byte more than the longest that is accepted.
    let mut table = [0u8; 513];
    let Ok(rows) = input::read_named(&rt, 5, &mut table) else {
        let _ = eprintln!(rt; "eachlog: cannot read the table of rights");
        return;
    };
    let mut slots = [slots::vacant(); 2048];
    let mut hub = hub_with(&rt, &table[..rows]);
    let mut k: u64 = 0;
    let mut slots_lent = long;
    // Nothing says that the input ends, so the turns are counted, up to a number that no run reaches.
    for _ in 0..u64::MAX {
        // Where a read fails, what it has of a record is none.
        let Ok(n) = input::fill(&rt, &mut rec) else {
            return;
        };
        if n == 0 {
            return;
        }
        if k == at as u64 {
            slots_lent = later;
        }
        let done = hub::call_owned(
            slots,
            slots_lent,
            hub,
            Call::Record,
            &list[..end],
            &rec[..n],
            &mut [],
            &mut [],
            &mut lent,
        );
        slots = done.slots;
        hub = done.called.hub;
        if !write_answer(&rt, k, done.called.answer) {
            let _ = eprintln!(rt; "eachlog: cannot write standard output");
            return;
        }
        if n < 16 {
            return;
        }
        k = k.wrapping_add(1);
    }
}
