// Ranges in lent memory, three words each, split by the times read (H5.19).
#![tactic(auto)]

ghost use Rattle.std.specs.Prelude.{◌≡◌, reverse, ◌+◌, ◌-◌, ◌*◌, ◌≤◌, ◌<◌, length, take, get_or};
ghost use Rattle.lists.specs.Over.{over};
ghost use Rattle.model.specs.Ranges.{needed_of, needless_of};
ghost use Rattle.model.specs.Figure.{Rising, move_on};
ghost use Rattle.ranges.specs.Words.{ranges_at, flat};
ghost use Rattle.range_split.specs.Split.{Beside, swap_at, Parted};

// A finger in sorted times: where it stands, one more than the last time behind it, and no more than the time at it. A high from `behind`
// to `next` does not move it.
#[derive(Clone, Copy)]
struct Finger {
    at: usize,
    behind: u32,
    next: u32,
}

// One more than the last time behind the finger; 0 where there is none.
fn behind(times: &[u64], at: usize) -> u32
    requires { (at ≤ length times.now) × (0 < at → get_or times.now (at - 1) 0 < 4294967295) }
    ensures { (at ≡ 0 → result ≡ 0) × (0 < at → result ≡ get_or times.now (at - 1) 0 + 1) }
{
    if at == 0 {
        return 0;
    }
    let last = times[at - 1];
    (last + 1) as u32
}

// The time at the finger; the greatest high where there is none, or where it is above every high.
fn next(times: &[u64], at: usize) -> u32
    ensures { at < length times.now → result ≤ get_or times.now at 0 }
{
    if at < times.len() {
        times[at].min(4294967295) as u32
    } else {
        4294967295
    }
}

// The finger behind the sorted times that are below high; it moves only where high is not between the times beside it.
fn follow(times: &[u64], finger: Finger, high: u32) -> Finger
    requires { Rising times.now × Beside times.now finger }
    ensures { Beside times.now result × (result.at ≡ move_on high times.now 0) }
{
    if finger.behind <= high && high <= finger.next {
        return finger;
    }
    let at = times::move_finger(times, times.len(), finger.at, high);
    Finger {
        at,
        behind: behind(times, at),
        next: next(times, at),
    }
}

// Splits the first n ranges of m by sorted times: the needless move to the front of m, the needed go to out, both in their order. Answers how
// many are needless. Where the highs rise it passes over the times once (Figure 1, lines 15 to 26); where they do not, the finger goes back.
// Without any time all are needless, and nothing is compared.
fn pass_in_place(m: &mut [u32], n: usize, times: &[u64], out: &mut [u32]) -> usize
    requires { (3 * n ≤ length m.old) × (3 * n ≤ length out.old) × Rising times.now }
    ensures value { result ≡ length (needless_of times.now (ranges_at m.old 0 n)) }
    ensures m_after { m.new ≡ over (flat (needless_of times.now (ranges_at m.old 0 n))) m.old }
    ensures out_after { out.new ≡ over (flat (needed_of times.now (ranges_at m.old 0 n))) out.old }
{
    if times.is_empty() {
        return n;
    }
    let mut j = 0;
    let mut finger = Finger {
        at: 0,
        behind: 0,
        next: 0,
    };
    // By index: ranges are read and written in the same words, and those are lent as words.
    for i in 0..n {
        let range = ranges::range_at(m, i);
        finger = follow(times, finger, range.high);
        // the last time behind the finger, if there is one, is not below low (Figure 1, line 23)
        if range.low < finger.behind {
            ranges::put_range(out, i - j, range);
        } else {
            ranges::put_range(m, j, range);
            j += 1;
        }
    }
    j
}

// Exchanges the ranges at places i and k.
fn swap_ranges(m: &mut [u32], i: usize, k: usize)
    requires { (3 * i + 2 < length m.old) × (3 * k + 2 < length m.old) }
    ensures { m.new ≡ swap_at m.old i k }
{
    let a = ranges::range_at(m, i);
    let b = ranges::range_at(m, k);
    ranges::put_range(m, i, b);
    ranges::put_range(m, k, a);
}

// Reverses the first n ranges of m.
fn reverse_ranges(m: &mut [u32], n: usize)
    requires { 3 * n ≤ length m.old }
    ensures { m.new ≡ over (flat (reverse (ranges_at m.old 0 n))) m.old }
{
    // By index: three words are a range, and the words are no array of ranges that `reverse` could turn.
    for i in 0..n / 2 {
        swap_ranges(m, i, n - 1 - i);
    }
}

// Splits the first n ranges of m by the first t times. The needless stay in m, the one to be freed first last, so that each is taken
// from the end; the needed go to out. Answers how many are needless. The announced times are sorted once, for one pass with a finger.
// The counts n and t come beside the memory, since that is lent and longer than what it holds.
pub fn split(m: &mut [u32], n: usize, times: &[u64], t: usize, out: &mut [u32]) -> usize
    requires { (3 * n ≤ length m.old) × (t ≤ length times.now) × (3 * n ≤ length out.old) × (t ≤ 28) }
    ensures { Parted (take t times.now) (ranges_at m.old 0 n) m.old m.new out.old out.new result }
{
    let mut sorted = [0u64; 28];
    let k = times::sort_announcements(times, t, &mut sorted);
    let needless = pass_in_place(m, n, &sorted[..k], out);
    reverse_ranges(m, needless);
    needless
}
