// The log of the records, part by part: the records of a part of the input are applied, and their lines are written as text.
#![tactic(auto)]

ghost use Rattle.std.specs.Prelude.{◌≤◌, length};
ghost use Rattle.model.specs.Rules.{of_totals};
ghost use Rattle.versions.specs.Versions.{row_of};
ghost use Rattle.simulation.specs.Lent.{lent_memory};
ghost use Rattle.logs.specs.Part.{Logs};

use state::{Hub, Lent};

// What is left of the hub by value, how many records were applied, and how many bytes of text their lines have.
#[derive(Clone, Copy)]
pub struct Logged {
    pub hub: Hub,
    pub count: usize,
    pub used: usize,
}

// Applies the records of a part of the input, the first of which has the number `first`, and writes their lines from the start of the text. The
// slots are a lent row of words. Rows that are lent with any length are parameters of their own, as in `records::apply_all`: memory is fixed.
// No line is lost: as many records are applied as there is room for, with 70 bytes of text, a kind and a number for each.
pub fn log_part(
    row: &mut [[u64; 6]],
    hub: Hub,
    given: &[u8],
    bytes: &[u8],
    first: u64,
    text: &mut [u8],
    kinds: &mut [u16],
    numbers: &mut [u64],
    lent: &mut Lent,
) -> Logged
    ensures logs { Logs
        (lent_memory hub (row_of row.old) lent.old)
        (of_totals given.now) bytes.now first text.old kinds.old numbers.old result.count result.used
        (lent_memory result.hub (row_of row.new) lent.new)
        text.new kinds.new numbers.new }
    ensures used_in_bounds { result.used ≤ length text.new }
{
    let n = bytes.len().min(16 * (text.len() / 70));
    let done = records::apply_all(row, hub, given, &bytes[..n], kinds, numbers, lent);
    let count = done.count;
    let used = lines::write_lines(text, first, kinds, numbers, count);
    Logged {
        hub: done.hub,
        count,
        used,
    }
}
