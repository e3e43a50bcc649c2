// The lent arrays of slots: one entry replaced, and what a setup writes into them.
#![tactic(auto)]

ghost use Rattle.std.specs.Prelude.{◌≡◌, ◌-◌, ◌≤◌, set};
ghost use Rattle.arrays.specs.Arrays.{short, fill_to};

// Entry i is replaced; past the end nothing is.
pub fn set_short(l: &mut [u16], i: usize, x: usize)
    ensures { l.new ≡ set l.old i (short x) }
{
    if i < l.len() {
        l[i] = (x % 65536) as u16;
    }
}

// H2.9: the newest version of register r is in slot r, for the first v registers.
pub fn fill_newest(newest: &mut [u16; 256], v: usize)
    ensures { newest.new ≡ fill_to newest.old short v }
{
    for i in 0..v {
        set_short(newest, i, i);
    }
}

// H2.10: the k free slots from n - k on. The lowest is taken first, so it stands last. The loop stays beside the one above: a function of both, over a
// closure for what an entry is, would need clauses for the closure and be longer than the two.
pub fn fill_free(free: &mut [u16; 2048], n: usize, k: usize)
    requires { k ≤ n }
    ensures { free.new ≡ fill_to free.old (λ j. short (n - 1 - j)) k }
{
    for j in 0..k {
        set_short(free, j, n - 1 - j);
    }
}
