// All version slots of a row of words: the test of neighbours, and a setup.
#![tactic(auto)]

ghost use Rattle.std.specs.Prelude.{◌≡◌};
ghost use Rattle.slots.specs.Slots.{linked_to, made_to};
ghost use Rattle.versions.specs.Versions.{row_of};

// Whether the neighbours of the first n slots are slots below n or absent. Past the end of the row there are none to look at.
pub fn all_linked(row: &[[u64; 6]], n: usize) -> bool
    ensures { result ≡ linked_to (row_of row.now) n n }
{
    let most = n.min(row.len());
    let mut ok = true;
    // By index, here and below: what the words of a slot mean `versions::load` and `store` know, of a row and an index.
    for i in 0..most {
        let s = versions::load(row, i);
        ok = one_slot::linked_and(ok, s, n);
    }
    ok
}

// The first n slots as a setup of v registers leaves them.
pub fn set_up(row: &mut [[u64; 6]], v: usize, n: usize)
    ensures { row_of row.new ≡ made_to (row_of row.old) v n }
{
    for i in 0..n {
        let s = versions::load(row, i);
        let t = one_slot::made(i, v, s);
        versions::store(row, i, t);
    }
}
