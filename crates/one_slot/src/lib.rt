// One version slot: the test of its neighbours, and what a setup makes of it.
#![tactic(auto)]

ghost use Rattle.std.specs.Prelude.{◌≡◌};
ghost use Rattle.slots.specs.Slots.{linked_and, made_slot};

use slots::Slot;
use values::Content;

// Whether the neighbours of a slot are slots below n or absent, where those of all slots before it were.
pub fn linked_and(ok: bool, s: Slot, n: usize) -> bool
    ensures { result ≡ linked_and ok s n }
{
    ok & ((s.older < n) | (s.older == 4294967296)) & ((s.newer < n) | (s.newer == 4294967296))
}

// The slot that a setup of v registers makes of slot i.
pub fn made(i: usize, v: usize, s: Slot) -> Slot
    ensures { result ≡ made_slot i v s }
{
    if i < v {
        return Slot {
            value: None,
            low: 0,
            high: 4294967296,
            older: 4294967296,
            newer: 4294967296,
        };
    }
    Slot {
        older: 4294967296,
        newer: 4294967296,
        ..s
    }
}
