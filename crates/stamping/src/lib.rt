// The stamp of a register in the row of words (H1.13): its newest version gets a low, and the one before it a high.
#![tactic(auto)]

ghost use Rattle.std.specs.Prelude.{◌≡◌};
ghost use Rattle.versions.specs.Versions.{row_of, change_in, stamped_in, with_low, with_high};

use slots::Slot;

// One part of the slot at an index is replaced.
fn set_low(row: &mut [[u64; 6]], i: usize, x: u64)
    ensures { row_of row.new ≡ change_in (row_of row.old) i (λ v. with_low v x) }
{
    let s = versions::load(row, i);
    versions::store(row, i, Slot { low: x, ..s });
}

fn set_high(row: &mut [[u64; 6]], i: usize, x: u64)
    ensures { row_of row.new ≡ change_in (row_of row.old) i (λ v. with_high v x) }
{
    let s = versions::load(row, i);
    versions::store(row, i, Slot { high: x, ..s });
}

// Stamps the register whose newest version is in slot i.
pub fn stamp(row: &mut [[u64; 6]], i: usize, clock: u32)
    ensures { row_of row.new ≡ stamped_in (row_of row.old) i clock }
{
    let a = versions::load(row, i);
    if a.low == 4294967296 {
        set_low(row, i, clock as u64);
        set_high(row, a.older, clock as u64);
    }
}
