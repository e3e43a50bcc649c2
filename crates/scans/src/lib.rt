// Scans of numbers that lie in lent memory, without branches: whether there are so many, and each is below a bound.
#![tactic(auto)]

ghost use Rattle.std.specs.Prelude.{◌≡◌, ◌&&◌, ◌+◌, ◌*◌, leb, length};
ghost use Rattle.scans.specs.Scans.{below_to, slots_below, rows_below};

// Whether there are k numbers, and the first k are below n.
#[tactic(auto, unfolding(crate::specs::Scans::below_to))]
pub fn all_below(l: &[u16], k: usize, n: u16) -> bool
    ensures { result ≡ leb k (length l.now) && below_to l.now n k }
{
    if l.len() < k {
        return false;
    }
    let mut ok = true;
    for &x in &l[..k] {
        ok &= x < n;
    }
    ok
}

// Whether there are k ranges from place i on, and their slots are below n.
#[tactic(auto, unfolding(crate::specs::Scans::slots_below))]
pub fn slots_below(words: &[u32], i: usize, k: usize, n: u32) -> bool
    ensures { result ≡ leb (3 * (i + k)) (length words.now) && slots_below words.now i n k }
{
    let (ranges, _) = words.as_chunks::<3>();
    if ranges.len() < k {
        return false;
    }
    if ranges.len() - k < i {
        return false;
    }
    let mut ok = true;
    for range in &ranges[i..i + k] {
        ok &= range[0] < n;
    }
    ok
}

// Whether there are k rows of totals, and the registers of the first k are below v.
#[tactic(auto, unfolding(crate::specs::Scans::rows_below))]
pub fn rows_below(rows: &[u32; 1024], k: usize, v: u32) -> bool
    ensures { result ≡ leb k 1024 && rows_below rows.now v k }
{
    if 1024 < k {
        return false;
    }
    let mut ok = true;
    for &row in &rows[..k] {
        ok &= row / 65536 < v;
    }
    ok
}
