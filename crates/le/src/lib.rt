// Numbers in bytes, the least byte first (H3.2).
#![tactic(auto)]

ghost use Rattle.std.specs.Prelude.{◌≡◌, cond, ◌+◌, ◌<◌, ◌≤◌, leb, length, take, drop, MatchOption};
ghost use Rattle.model.specs.Record.{number};

// The N bytes from place i on, where there are so many.
fn at<const N: usize>(b: &[u8], i: usize) -> Option<[u8; N]>
    ensures { MatchOption result (length b.now < i + N) (λ x. (x ≡ take N (drop i b.now)) × (i + N ≤ length b.now)) }
{
    let (bytes, _) = b.get(i..)?.split_first_chunk()?;
    Some(*bytes)
}

// The numbers in two, four and eight bytes from place i on, and 0 where there are fewer.
pub fn two(b: &[u8], i: usize) -> u16
    ensures { result ≡ cond (leb (i + 2) (length b.now)) (number b.now i 2) 0 }
{
    at(b, i).map_or(0, u16::from_le_bytes)
}

pub fn four(b: &[u8], i: usize) -> u32
    ensures { result ≡ cond (leb (i + 4) (length b.now)) (number b.now i 4) 0 }
{
    at(b, i).map_or(0, u32::from_le_bytes)
}

pub fn eight(b: &[u8], i: usize) -> u64
    ensures { result ≡ cond (leb (i + 8) (length b.now)) (number b.now i 8) 0 }
{
    at(b, i).map_or(0, u64::from_le_bytes)
}
