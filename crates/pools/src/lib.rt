// One range more in a pool: its slot, its low and its high are put at the index n, how many there were.
#![tactic(auto)]

ghost use Rattle.std.specs.Prelude.{◌≡◌};
ghost use Rattle.pools.specs.Placed.{placed, one_more_to};

// How many there are with one more, where there are MOST at the most.
pub fn one_more<const MOST: usize>(n: usize) -> usize
    ensures { result ≡ one_more_to MOST n }
{
    if n < MOST { n + 1 } else { n }
}

// Puts x at the index n of one of the pool's arrays. A full pool stays as it is.
pub fn put<T: Copy>(entries: &mut [T; 64], n: usize, x: T)
    ensures { entries.new ≡ placed entries.old n x }
{
    if n < 64 {
        entries[n] = x;
    }
}
