// Whether a worker's record is in range: its place, its local pool and the list that it has in hand.
#![tactic(auto)]

ghost use Rattle.std.specs.Prelude.{◌≡◌, ◌&&◌, ◌<◌, ◌≤◌, leb};
ghost use Rattle.ready_worker.specs.Worker.{pool_fits, list_fits, hand_fits, worker_fits};

use worker::{Pool, Worker};

// Whether a local pool's count and slots are in range.
fn pool_fits(q: Pool, most: usize, n: u16) -> bool
    requires { most ≤ 64 }
    ensures { result ≡ pool_fits q most n }
{
    if most < q.len {
        return false;
    }
    scans::all_below(&q.slots, q.len, n)
}

// Whether the list in hand of worker w, which has m ranges, has at most so many, and its slots are in range.
fn list_fits(m: u16, w: usize, merged: &[u32; 12288], most: usize, n: u32) -> bool
    requires { (w < 16) × (most ≤ 256) }
    ensures { result ≡ list_fits m w merged.now most n }
{
    let k = usize::from(m);
    if most < k {
        return false;
    }
    scans::slots_below(merged, 256 * w, k, n)
}

// The same of the list that worker w's place has, if there is one.
fn hand_fits(ranges: Option<u16>, w: usize, merged: &[u32; 12288], most: usize, n: u32) -> bool
    requires { most ≤ 256 }
    ensures { result ≡ hand_fits ranges w merged.now most n }
{
    if 16 <= w {
        return false;
    }
    match ranges {
        None => true,
        Some(m) => list_fits(m, w, merged, most, n),
    }
}

// Whether a local pool has room for so many ranges and a list in hand too, and worker w's record x is in range, with at most so many in each.
pub fn worker_fits(
    x: Worker,
    w: usize,
    merged: &[u32; 12288],
    local: usize,
    list: usize,
    p: u8,
    v: u16,
    n: u16,
    k: u16,
) -> bool
    ensures { result ≡ leb local 64 && leb list 256 && worker_fits x w merged.now local list p v n k }
{
    if 64 < local {
        return false;
    }
    if 256 < list {
        return false;
    }
    let y = places::about(x.doing);
    (ready_place::place_fits(y, p, v, n, k) & pool_fits(x.pool, local, n))
        & hand_fits(y.ranges, w, merged, list, u32::from(n))
}
