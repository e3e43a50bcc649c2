// What the steps do to version lists in the row of words: link, unlink.
#![tactic(auto)]

ghost use Rattle.std.specs.Prelude.{◌≡◌};
ghost use Rattle.versions.specs.Versions.{row_of, alone_slot, published_slot, change_in, linked_in, unlinked_in};
ghost use Rattle.versions.specs.Versions.{with_older, with_newer};

use slots::Slot;
use values::{Content, Reading};

// One part of the slot at an index is replaced.
fn set_older(row: &mut [[u64; 6]], i: usize, x: usize)
    ensures { row_of row.new ≡ change_in (row_of row.old) i (λ v. with_older v x) }
{
    let s = versions::load(row, i);
    versions::store(row, i, Slot { older: x, ..s });
}

fn set_newer(row: &mut [[u64; 6]], i: usize, x: usize)
    ensures { row_of row.new ≡ change_in (row_of row.old) i (λ v. with_newer v x) }
{
    let s = versions::load(row, i);
    versions::store(row, i, Slot { newer: x, ..s });
}

// The slot at an index has no neighbours any more.
fn set_alone(row: &mut [[u64; 6]], i: usize)
    ensures { row_of row.new ≡ change_in (row_of row.old) i alone_slot }
{
    let s = versions::load(row, i);
    let x = Slot {
        older: 4294967296,
        newer: 4294967296,
        ..s
    };
    versions::store(row, i, x);
}

// The version that a put publishes above slot i.
fn published(reading: Reading, i: usize) -> Slot
    ensures { result ≡ published_slot reading i }
{
    Slot {
        value: Some(reading),
        low: 4294967296,
        high: 4294967296,
        older: i,
        newer: 4294967296,
    }
}

// Links slot f with a reading and no low above slot i.
pub fn link(row: &mut [[u64; 6]], i: usize, f: usize, reading: Reading)
    ensures { row_of row.new ≡ linked_in (row_of row.old) i f reading }
{
    set_newer(row, i, f);
    let x = published(reading, i);
    versions::store(row, f, x);
}

// Unlinks slot i.
pub fn unlink(row: &mut [[u64; 6]], i: usize)
    ensures { row_of row.new ≡ unlinked_in (row_of row.old) i }
{
    let a = versions::load(row, i);
    let o = a.older;
    let n = a.newer;
    if o == 4294967296 {
        set_older(row, n, o);
        set_alone(row, i);
    } else {
        set_newer(row, o, n);
        set_older(row, n, o);
        set_alone(row, i);
    }
}
