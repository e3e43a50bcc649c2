// The version slots: one lent row of structs, of which one slot is loaded or stored.
#![tactic(auto)]

ghost use Rattle.std.specs.Prelude.{◌≡◌, set, get_or};
ghost use Rattle.slots.specs.Slots.{vacant_slot};

use values::Content;

// H1.7: a slot for a version. H8.9: an unset low, an open high and an absent neighbour are 4294967296.
#[derive(Clone, Copy)]
pub struct Slot {
    pub value: Content,
    pub low: u64,
    pub high: u64,
    pub older: usize,
    pub newer: usize,
}

// What is loaded past the end of the row.
pub fn vacant() -> Slot
    ensures { result ≡ vacant_slot }
{
    Slot {
        value: None,
        low: 0,
        high: 0,
        older: 0,
        newer: 0,
    }
}

// The slot at an index; a vacant one past the end.
pub fn load(slots: &[Slot], i: usize) -> Slot
    ensures { result ≡ get_or slots.now i vacant_slot }
{
    if i < slots.len() {
        return slots[i];
    }
    vacant()
}

// The slot at an index is replaced; past the end nothing is.
pub fn store(slots: &mut [Slot], i: usize, s: Slot)
    ensures { slots.new ≡ set slots.old i s }
{
    if slots.len() <= i {
        return;
    }
    slots[i] = s;
}
