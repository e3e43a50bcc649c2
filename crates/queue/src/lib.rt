// The queue of shared pools in lent memory (H1.20): a pool pushed at its end, up to two taken from its front and merged (H5.15). It lies in a
// window, whose beginning moves on where pools are taken and to the front where it comes to the middle of the memory.
#![tactic(auto)]

ghost use Rattle.std.specs.Prelude.{◌≡◌, true, [], ◌+◌, ◌-◌, ◌*◌, ◌≤◌, ◌<◌, min, length, take};
ghost use Rattle.lists.specs.Over.{over, over_at, shifted};
ghost use Rattle.model.specs.Ranges.{merge};
ghost use Rattle.ranges.specs.Words.{ranges_at, flat};
ghost use Rattle.queue.specs.State.{pools_in, lies, room, pushed, length_at, may_take, moved_on, Took};

use values::Window;

// What is left after taking, and how many ranges were taken.
#[derive(Clone, Copy)]
pub struct Taking {
    pub window: Window,
    pub count: usize,
}

// Whether the window lies in the memory, whatever that holds.
#[tactic(auto, unfolding(crate::specs::State::lies))]
fn lies_in(w: Window) -> bool
    ensures { result ≡ lies w }
{
    w.first <= 2048 && w.pools <= 2048 && w.from <= 2048 && w.queued <= 2048
}

// Whether there is room for a pool of n ranges, which is not empty.
#[tactic(auto, unfolding(crate::specs::State::lies, crate::specs::State::room))]
fn has_room(w: Window, n: usize) -> bool
    ensures { result ≡ room w n }
{
    lies_in(w) && 0 < n && w.pools < 2048 && n <= 2048 - w.queued
}

// Queues src's first n ranges as a pool; an empty pool is not queued, nor one without room. The queue comes in three parameters: two are pieces
// of the caller's fixed lent memory, and the window is a part of the hub.
#[tactic(auto, unfolding(crate::specs::State::lies, crate::specs::State::room, crate::specs::State::pushed))]
pub fn push(
    queue: &mut [u32; 12288],
    lens: &mut [u32; 4096],
    w: Window,
    src: &[u32],
    n: usize,
) -> Window
    requires { 3 * n ≤ length src.now }
    ensures { pools_in queue.new lens.new result ≡ pushed (pools_in queue.old lens.old w) src.now n }
{
    if has_room(w, n) {
        let at = 3 * (w.from + w.queued);
        queue[at..at + 3 * n].copy_from_slice(&src[..3 * n]);
        lens[w.first + w.pools] = n as u32;
        return Window {
            pools: w.pools + 1,
            queued: w.queued + n,
            ..w
        };
    }
    w
}

// The length of the queue's pool i; a pool that is not there has none.
#[tactic(auto, unfolding(crate::specs::State::lies))]
fn length_at(lens: &[u32; 4096], w: Window, i: usize) -> usize
    requires { lies w ≡ true }
    ensures { (result ≡ length_at lens.now w i) × (result < 4294967296) }
{
    if i < w.pools {
        lens[w.first + i] as usize
    } else {
        0
    }
}

// Merges two pools, of la and lb ranges, that stand from range `from` on one after the other, into merged.
fn merge_two(queue: &[u32], from: usize, la: usize, lb: usize, merged: &mut [u32])
    requires { (3 * (from + (la + lb)) ≤ length queue.now) × (3 * (la + lb) ≤ length merged.old) }
    ensures { merged.new ≡ over (flat (merge (ranges_at queue.now from la) (ranges_at queue.now (from + la) lb))) merged.old }
{
    ranges::merge(
        &queue[3 * from..],
        la,
        &queue[3 * (from + la)..],
        lb,
        merged,
    );
}

// Whether the window lies in the memory, and its first two lengths are those of a queue whose first two pools have at most 256 ranges.
#[tactic(auto, unfolding(crate::specs::State::may_take))]
fn may_take(lens: &[u32; 4096], w: Window) -> bool
    ensures { result ≡ may_take (pools_in [] lens.now w) }
{
    if lies_in(w) {
        let r = length_at(lens, w, 0) + length_at(lens, w, 1);
        return r <= w.queued && r <= 256;
    }
    false
}

// The window without its first two pools, of r ranges: it begins behind them, or, where that is past range 2048, what is left moves to the
// front.
#[tactic(auto, unfolding(crate::specs::State::lies, crate::specs::State::moved_on))]
fn move_on(queue: &mut [u32; 12288], lens: &mut [u32; 4096], w: Window, r: usize) -> Window
    requires { (lies w ≡ true) × (r ≤ w.queued) }
    ensures { pools_in queue.new lens.new result ≡ moved_on (pools_in queue.old lens.old w) r }
{
    let pools = w.pools.saturating_sub(2);
    let queued = w.queued - r;
    let from = w.from + r;
    let first = w.first + w.pools.min(2);
    if from <= 2048 {
        return Window {
            first,
            pools,
            from,
            queued,
        };
    }
    queue.copy_within(3 * from..3 * (w.from + w.queued), 0);
    lens.copy_within(first..w.first + w.pools, 0);
    Window {
        first: 0,
        pools,
        from: 0,
        queued,
    }
}

// Takes up to two pools from the front of the queue, merged into `merged`; nothing where the window and its lengths are not a queue's. A pool
// that is not there is an empty one, so that one merge serves no, one and two pools.
pub fn take(
    queue: &mut [u32; 12288],
    lens: &mut [u32; 4096],
    w: Window,
    merged: &mut [u32],
) -> Taking
    requires { 768 ≤ length merged.old }
    ensures { Took (pools_in queue.old lens.old w) (pools_in queue.new lens.new result.window) merged.old merged.new result.count }
{
    if !may_take(lens, w) {
        return Taking {
            window: w,
            count: 0,
        };
    }
    let la = length_at(lens, w, 0);
    let lb = length_at(lens, w, 1);
    let r = la + lb;
    merge_two(queue, w.from, la, lb, merged);
    let window = move_on(queue, lens, w, r);
    Taking { window, count: r }
}
