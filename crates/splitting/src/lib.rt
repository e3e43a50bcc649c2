// Flush (3): the merged list is split, and what is needed goes back to the queue with the local pool.
#![tactic(auto)]

ghost use Rattle.std.specs.Prelude.{◌≡◌, reverse, ◌-◌, ◌≤◌, ◌<◌, length, take};
ghost use Rattle.lists.specs.Over.{over};
ghost use Rattle.model.specs.Ranges.{needed_of, needless_of};
ghost use Rattle.ranges.specs.Words.{ranges_at, flat};
ghost use Rattle.queue.specs.State.{pools_in};
ghost use Rattle.worker.specs.Pool.{ranges_in};
ghost use Rattle.flush.specs.Flush.{part_of, with_part, times_of};
ghost use Rattle.splitting.specs.Splitting.{requeued, joined_after, may_cut, split_left, split_queue, split_merged, split_needed};
ghost use Rattle.splitting.specs.Splitting.{split_local, split_joined};

use ranges::Range;
use values::Window;
use worker::Pool;

// The ranges of a local pool as words, the first len.
fn pool_words(q: Pool, out: &mut [u32])
    requires { (q.len ≤ 64) × (length out.old ≡ 192) }
    ensures { out.new ≡ over (flat (ranges_in q)) out.old }
{
    // by index, since a pool keeps its slots, lows and highs in three arrays, as its definition has them
    for i in 0..q.len {
        let range = Range {
            slot: u32::from(q.slots[i]),
            low: q.lows[i],
            high: q.highs[i],
        };
        ranges::put_range(out, i, range);
    }
}

// The pools that are queued: of the first `stay` ranges of needed, and the local pool. `size` is the batch size.
// What `local` and `joined` hold at entry does not matter: the local pool's words are written to the one, the joined list to the other.
fn requeue(
    queue: &mut [u32; 12288],
    lens: &mut [u32; 4096],
    window: Window,
    q: Pool,
    needed: &[u32; 768],
    stay: usize,
    size: usize,
    local: &mut [u32; 192],
    joined: &mut [u32; 960],
) -> Window
    requires { (q.len ≤ 64) × (stay ≤ 256) × (size < 4294967296) }
    ensures result_after { pools_in queue.new lens.new result
        ≡ requeued (pools_in queue.old lens.old window) q needed.now stay size }
    ensures local_after { local.new ≡ over (flat (ranges_in q)) local.old }
    ensures joined_after { joined.new ≡ joined_after q needed.now stay size joined.old }
{
    let n = q.len;
    pool_words(q, local);
    if 2 * size < stay {
        let h = (stay + 1) / 2;
        let first = queue::push(queue, lens, window, needed, h);
        let second = queue::push(queue, lens, first, &needed[3 * h..], stay - h);
        return queue::push(queue, lens, second, local, n);
    }
    if size < stay {
        let first = queue::push(queue, lens, window, needed, stay);
        return queue::push(queue, lens, first, local, n);
    }
    ranges::merge(local, n, needed, stay, joined);
    queue::push(queue, lens, window, joined, n + stay)
}

// The first m ranges of worker w's part of the merged lists, split by the first `read` of its times.
fn split_part(
    merged: &mut [u32],
    w: usize,
    m: usize,
    times: &[u64; 448],
    read: usize,
    needed: &mut [u32; 768],
) -> usize
    requires { (w < 16) × (m ≤ 256) × (read ≤ 28) × (length merged.old ≡ 12288) }
    ensures value { result ≡ length (needless_of (take read (times_of times.now w)) (ranges_at (part_of merged.old w) 0 m)) }
    ensures merged_after { merged.new
        ≡ with_part merged.old w
        (over
        (flat (reverse (needless_of (take read (times_of times.now w)) (ranges_at (part_of merged.old w) 0 m))))
        (part_of merged.old w)) }
    ensures needed_after { needed.new ≡ over (flat (needed_of (take read (times_of times.now w)) (ranges_at (part_of merged.old w) 0 m))) needed.old }
{
    let at = 768 * w;
    let from = 28 * w;
    range_split::split(
        &mut merged[at..at + 768],
        m,
        &times[from..from + 28],
        read,
        needed,
    )
}

// Whether the counts allow a split.
fn may_split(w: usize, m: usize, read: usize, len: usize) -> bool
    ensures { result ≡ may_cut w m read len }
{
    w < 16 && m <= 256 && read <= 28 && len <= 64
}

// How many needless ranges are left to free, and the queue's window.
#[derive(Clone, Copy)]
pub struct Parted {
    pub left: u16,
    pub window: Window,
}

// Flush (3), of worker w's first m ranges by the first `read` of its times: the needless ranges stay in its part, the needed ones and the local
// pool go to the queue, in batches of this size. The last three arrays are space to work in; what they hold at entry does not matter.
pub fn flush_split(
    queue: &mut [u32; 12288],
    lens: &mut [u32; 4096],
    window: Window,
    merged: &mut [u32; 12288],
    w: usize,
    m: u16,
    times: &[u64; 448],
    read: usize,
    size: u8,
    q: Pool,
    needed: &mut [u32; 768],
    local: &mut [u32; 192],
    joined: &mut [u32; 960],
) -> Parted
    ensures left_value { result.left ≡ split_left merged.old w m times.now read q }
    ensures window_after { pools_in queue.new lens.new result.window
        ≡ split_queue (pools_in queue.old lens.old window) merged.old w m times.now read size q }
    ensures merged_after { merged.new ≡ split_merged merged.old w m times.now read q }
    ensures needed_after { needed.new ≡ split_needed merged.old w m times.now read q needed.old }
    ensures local_after { local.new ≡ split_local w m read q local.old }
    ensures joined_after { joined.new ≡ split_joined merged.old w m times.now read size q joined.old }
{
    let n = m as usize;
    if may_split(w, n, read, q.len) {
        let k = split_part(merged, w, n, times, read, needed);
        let after = requeue(
            queue,
            lens,
            window,
            q,
            needed,
            n - k,
            size as usize,
            local,
            joined,
        );
        return Parted {
            left: (k % 65536) as u16,
            window: after,
        };
    }
    Parted { left: 0, window }
}
