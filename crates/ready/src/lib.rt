// Whether lent memory counts as set up: a test of all of it, by scans without branches.
#![tactic(auto)]

ghost use Rattle.std.specs.Prelude.{◌≡◌, ◌≤◌};
ghost use Rattle.ready.specs.Ready.{workers_fit, ready_of, scans_fit};

use state::{Hub, Lent};

// Whether the first p workers' records are in range.
fn workers_fit(hub: Hub, merged: &[u32; 12288], local: usize, list: usize) -> bool
    requires { (hub.site.p ≤ 16) × (hub.site.v ≤ 256) × (hub.site.n ≤ 2048) × (hub.site.listed ≤ 1024) × (local ≤ 64) × (list ≤ 256) }
    ensures { result ≡ workers_fit hub merged.now local list hub.site.p }
{
    let all = hub.site.p;
    let p = all as u8;
    let v = hub.site.v as u16;
    let n = hub.site.n as u16;
    let k = hub.site.listed as u16;
    let mut ok = true;
    for (w, &x) in hub.workers[..all].iter().enumerate() {
        ok &= ready_worker::worker_fits(x, w, merged, local, list, p, v, n, k);
    }
    ok
}

// Whether all but the table of rights is in range. `linked` says it of the neighbours in the row of slots, which has so many.
fn scans_fit<'a>(hub: Hub, lent: &'a Lent, linked: bool, long: usize) -> bool
    ensures { result
        ≡ scans_fit hub lent.now.newest lent.now.free lent.now.queue lent.now.lens lent.now.merged linked long }
{
    if ready_sizes::sizes_fit(hub, long) {
        let n = hub.site.n as u16;
        let size = usize::from(hub.site.batch);
        let most = hub.site.n - hub.site.v;
        let a = scans::all_below(&lent.newest, hub.site.v, n);
        let b = scans::all_below(&lent.free, hub.free, n);
        let w = hub.window;
        let c = ready_queue::pools_fit(w, &lent.queue, &lent.lens, hub.site.batch, n);
        let d = workers_fit(hub, &lent.merged, size.min(most), (4 * size).min(most));
        let e = scans::rows_below(&hub.site.rows, hub.site.listed, hub.site.v as u32);
        return (((a & b) & c) & d) & (e & linked);
    }
    false
}

// Whether lent memory counts as set up. `linked` says that the neighbours in the row of slots, which has so many, are in range.
pub fn ready<'a>(hub: Hub, lent: &'a Lent, linked: bool, long: usize) -> bool
    ensures { result
        ≡ ready_of hub lent.now.newest lent.now.free lent.now.queue lent.now.lens lent.now.merged linked long }
{
    let fit = scans_fit(hub, lent, linked, long);
    fit & rights_table::stands(&hub.site.rights, hub.site.granted)
}
