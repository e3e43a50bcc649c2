// Whether the pools of the queue are in range: their ranges and their lengths, in the window.
#![tactic(auto)]

ghost use Rattle.std.specs.Prelude.{◌≡◌, ◌+◌, ◌<◌, ◌≤◌};
ghost use Rattle.ready_queue.specs.Queue.{lens_fit, lens_sum, pools_fit};

use values::Window;

// Whether the k pools whose lengths stand from place i on have 1 to so many ranges each.
#[tactic(auto, unfolding(crate::specs::Queue::lens_fit))]
fn lens_fit(lens: &[u32; 4096], i: usize, k: usize, most: u32) -> bool
    requires { i + k ≤ 4096 }
    ensures { result ≡ lens_fit lens.now i most k }
{
    let mut ok = true;
    for &x in &lens[i..i + k] {
        ok &= (1 <= x) & (x <= most);
    }
    ok
}

// How many ranges they have together.
#[tactic(auto, unfolding(crate::specs::Queue::lens_sum))]
fn lens_sum(lens: &[u32; 4096], i: usize, k: usize) -> usize
    requires { i + k ≤ 4096 }
    ensures { result ≡ lens_sum lens.now i k }
{
    let mut sum = 0;
    for &x in &lens[i..i + k] {
        sum += x as usize;
    }
    sum
}

// Whether the window lies in the memory, and its pools are in range: slots below n, batches of b.
#[tactic(auto, unfolding(crate::specs::Queue::pools_fit))]
pub fn pools_fit<'a>(
    w: Window,
    queue: &'a [u32; 12288],
    lens: &'a [u32; 4096],
    b: u8,
    n: u16,
) -> bool
    ensures { result ≡ pools_fit w queue.now lens.now b n }
{
    let first = w.first;
    let pools = w.pools;
    let queued = w.queued;
    if 4096 < first {
        return false;
    }
    if 4096 - first < pools {
        return false;
    }
    let most = 2 * u32::from(b);
    let slots = scans::slots_below(queue, w.from, queued, u32::from(n));
    (slots & lens_fit(lens, first, pools, most)) & (lens_sum(lens, first, pools) == queued)
}
