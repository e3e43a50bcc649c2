// Every call in one, on the first slots of a row of words: what is asked is an enum by value, so that a further call is a case more.
#![tactic(auto)]

ghost use Rattle.std.specs.Prelude.{◌≡◌, take, drop};
ghost use Rattle.model.specs.Rules.{of_totals};
ghost use Rattle.versions.specs.Versions.{row_of};
ghost use Rattle.simulation.specs.Lent.{lent_memory};
ghost use Rattle.calls.specs.Calls.{Performed};

use called::Called;
use state::{Hub, Lent};
use tables::Table;

// What a call asks.
#[derive(Clone, Copy)]
pub enum Call {
    // The bytes are one record.
    Record,
    // The bytes are records, and their answers go into the two rows.
    Records,
    // The bytes are a table.
    Give(Table),
}

// A call on the first n slots of the words; more than there are count as all. The words after them keep their contents.
pub fn perform(
    row: &mut [[u64; 6]],
    n: usize,
    hub: Hub,
    what: Call,
    given: &[u8],
    bytes: &[u8],
    kinds: &mut [u16],
    numbers: &mut [u64],
    lent: &mut Lent,
) -> Called
    ensures { (drop n row.new ≡ drop n row.old)
        × Performed what
        (lent_memory hub (take n (row_of row.old)) lent.old)
        (of_totals given.now) bytes.now kinds.old numbers.old result
        (lent_memory result.hub (take n (row_of row.new)) lent.new)
        kinds.new numbers.new }
{
    let k = n.min(row.len());
    let first = &mut row[0..k];
    match what {
        Call::Record => records::apply_one(first, hub, given, bytes, lent),
        Call::Records => records::apply_all(first, hub, given, bytes, kinds, numbers, lent),
        Call::Give(table) => tables::give(first, hub, table, bytes, lent),
    }
}
