// Whether the sizes and counts of a hub, and the window of its queue, are in range.
#![tactic(auto)]

ghost use Rattle.std.specs.Prelude.{◌≡◌, ◌-◌};
ghost use Rattle.ready_sizes.specs.Sizes.{window_fits, sizes_fit};

use state::Hub;
use values::Window;

// Whether the queue's window is in range, with at most so many ranges.
fn window_fits(w: Window, most: usize) -> bool
    ensures { result ≡ window_fits w most }
{
    ((w.pools <= w.queued) & (w.queued <= most)) & ((w.first <= w.from) & (w.from <= 2048))
}

// Whether the hub's sizes and counts are in range, with a row of so many slots.
pub fn sizes_fit(hub: Hub, long: usize) -> bool
    ensures { result ≡ sizes_fit hub long }
{
    let p = hub.site.p;
    let v = hub.site.v;
    let n = hub.site.n;
    let size = hub.site.batch;
    let most = n.saturating_sub(v);
    (((1 <= p) & (p <= 16)) & ((1 <= v) & (v <= 256)))
        & (((v <= n) & (n <= 2048)) & (n <= long))
        & ((hub.free <= most) & window_fits(hub.window, most))
        & ((hub.site.listed <= 1024) & ((1 <= size) & (size <= 64)))
}
