// The hub by value: what its setup fixed, its clock and counts, and up to sixteen workers side by side, each with its own record; and what is lent beside it.
#![tactic(auto)]

ghost use Rattle.std.specs.Prelude.{◌≡◌};
ghost use Rattle.state.specs.State.{fresh_hub, tabled_hub, empty_hub};
ghost use Rattle.state.specs.Lent.{blank_lent};

use values::Window;
use worker::Worker;

// What a setup fixes.
#[derive(Clone, Copy)]
pub struct Site {
    // P, V and N (H1.1 to H1.3).
    pub p: usize,
    pub v: usize,
    pub n: usize,
    // The batch size B, the one for P (H1.24).
    pub batch: u8,
    // H12.3: how many rows the list of totals has, and the rows.
    pub listed: usize,
    pub rows: [u32; 1024],
    // H15: how many rows the table of rights has, and the rows; those beyond the count are nobody's.
    pub granted: usize,
    pub rights: [u64; 64],
}

// What is lent beside the hub and the row of slots. The hub says how much of each array is in use.
#[derive(Clone, Copy)]
pub struct Lent {
    // For each register the slot of its newest version.
    pub newest: [u16; 256],
    // The free slots, the one that is taken first last.
    pub free: [u16; 2048],
    // The ranges of the queued pools, three words each, one pool after the other, from where the hub's window begins.
    pub queue: [u32; 12288],
    // How many ranges each queued pool has, from where the window begins.
    pub lens: [u32; 4096],
    // For each worker 256 ranges for the list that its flush has in hand.
    pub merged: [u32; 12288],
}

impl Lent {
    // All zeros: a hub that is not set up looks at none of it.
    pub fn blank() -> Lent
        ensures { result ≡ blank_lent }
    {
        Lent {
            newest: [0u16; 256],
            free: [0u16; 2048],
            queue: [0u32; 12288],
            lens: [0u32; 4096],
            merged: [0u32; 12288],
        }
    }
}

#[derive(Clone, Copy)]
pub struct Hub {
    pub site: Site,
    pub clock: u32,
    // How many slots are free.
    pub free: usize,
    // Where the queue lies in its memory.
    pub window: Window,
    // 28 times for each worker, those of sixteen workers and of twelve marks: those that its flush has read stand first among them.
    pub times: [u64; 448],
    // H13: the time that each mark holds, 2^32 where it is empty, and for each worker the mark that it reads plus one, 0 where it reads none.
    pub marks: [u64; 12],
    pub reading: [u8; 16],
    pub workers: [Worker; 16],
}

impl Hub {
    // H2.6 to H2.8: all workers at their start, the queue empty. H2.10: slots V to N - 1 are free.
    pub fn fresh(site: Site, clock: u32) -> Hub
        ensures { result ≡ fresh_hub site clock }
    {
        let x = Worker::start();
        let v = site.v;
        let n = site.n;
        let mut free = 0;
        if v <= n {
            free = n - v;
        }
        let window = Window {
            first: 0,
            pools: 0,
            from: 0,
            queued: 0,
        };
        Hub {
            site,
            clock,
            free,
            window,
            times: [0u64; 448],
            marks: [4294967296u64; 12],
            reading: [0u8; 16],
            workers: [x; 16],
        }
    }

    // A hub that is not set up, in which a table of so many rows of rights stands.
    pub fn tabled(granted: usize, rights: [u64; 64]) -> Hub
        ensures { result ≡ tabled_hub granted rights }
    {
        let site = Site {
            p: 0,
            v: 0,
            n: 0,
            batch: 0,
            listed: 0,
            rows: [0u32; 1024],
            granted,
            rights,
        };
        Hub::fresh(site, 0)
    }

    // H15.10: the hub by value of memory that is emptied of setup and tables. What else is lent stays as it is.
    pub fn empty() -> Hub
        ensures { result ≡ empty_hub }
    {
        Hub::tabled(0, [0u64; 64])
    }
}
