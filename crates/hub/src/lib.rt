// The calls on slots that are structs: the first 2048 of a lent row, of any length, are read into words, the call of `calls` goes on the words,
// and they are written back. And the same for a caller that owns the row.
#![tactic(auto)]

ghost use Rattle.std.specs.Prelude.{◌≡◌, min, replicate, take, drop};
ghost use Rattle.model.specs.Rules.{of_totals};
ghost use Rattle.versions.specs.Versions.{row_of};
ghost use Rattle.simulation.specs.Lent.{lent_memory};
ghost use Rattle.calls.specs.Calls.{Performed};
ghost use Rattle.hub.specs.Rows.{copied_to};
ghost use Rattle.hub.specs.OnRow.{OnRow};

use called::Called;
use calls::Call;
use slots::Slot;
use state::{Hub, Lent};

// ---- the row of structs as words, and back

// The first n slots, read into the row of words.
#[tactic(auto, unfolding(crate::specs::Rows::copied_to))]
fn load_row(slots: &[Slot], row: &mut [[u64; 6]], n: usize)
    ensures { row_of row.new ≡ copied_to slots.now (row_of row.old) n }
{
    // By index, here and below: `slots` and `versions` know what lies at an index of their rows.
    for i in 0..n {
        versions::store(row, i, slots::load(slots, i));
    }
}

// The first n slots of the words, written back.
#[tactic(auto, unfolding(crate::specs::Rows::copied_to))]
fn store_row(row: &[[u64; 6]], slots: &mut [Slot], n: usize)
    ensures { slots.new ≡ copied_to (row_of row.now) slots.old n }
{
    for i in 0..n {
        slots::store(slots, i, versions::load(row, i));
    }
}

// A row of words, before anything is loaded into it.
fn zeros() -> [[u64; 6]; 2048]
    ensures { result ≡ replicate 2048 (replicate 6 0) }
{
    [[0u64; 6]; 2048]
}

// ---- the calls

// A call on a lent row of slots, of any length. What is asked says what the bytes are; what is given is for a setup.
pub fn call(
    slots: &mut [Slot],
    hub: Hub,
    what: Call,
    given: &[u8],
    bytes: &[u8],
    kinds: &mut [u16],
    numbers: &mut [u64],
    lent: &mut Lent,
) -> Called
    ensures { OnRow what
        (lent_memory hub slots.old lent.old)
        (of_totals given.now) bytes.now kinds.old numbers.old result
        (lent_memory result.hub slots.new lent.new)
        kinds.new numbers.new }
{
    let mut row = zeros();
    let n = slots.len().min(2048);
    load_row(slots, &mut row, n);
    let done = calls::perform(&mut row, n, hub, what, given, bytes, kinds, numbers, lent);
    store_row(&row, slots, n);
    done
}

// What a call gives back, and the row by value.
#[derive(Clone, Copy)]
pub struct Owned {
    pub called: Called,
    pub slots: [Slot; 2048],
}

// A call on the first `long` slots of a row that the caller owns; more than 2048 count as 2048. They are lent to `call`.
pub fn call_owned(
    row: [Slot; 2048],
    long: usize,
    hub: Hub,
    what: Call,
    given: &[u8],
    bytes: &[u8],
    kinds: &mut [u16],
    numbers: &mut [u64],
    lent: &mut Lent,
) -> Owned
    ensures { (drop (min long 2048) result.slots ≡ drop (min long 2048) row)
        × Performed what
        (lent_memory hub (take (min long 2048) row) lent.old)
        (of_totals given.now) bytes.now kinds.old numbers.old result.called
        (lent_memory result.called.hub (take (min long 2048) result.slots) lent.new)
        kinds.new numbers.new }
{
    let mut slots = row;
    let n = long.min(2048);
    let called = call(
        &mut slots[0..n],
        hub,
        what,
        given,
        bytes,
        kinds,
        numbers,
        lent,
    );
    Owned { called, slots }
}
