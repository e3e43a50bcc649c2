// The version slots as one lent row of words, six a slot: what stands in a slot. The words are the count of its reading,
// low, high, older, newer, and the status of its reading plus one, which is 0 where there is none.
#![tactic(auto)]

ghost use Rattle.std.specs.Prelude.{◌≡◌, ◌≤◌, set, get_or};
ghost use Rattle.slots.specs.Slots.{vacant_slot};
ghost use Rattle.versions.specs.Versions.{row_of, content_in, count_word, held_word};

use slots::Slot;
use values::{Content, Reading};

// What the two words of a version say that it holds.
fn content(x: u64, held: u64) -> Content
    ensures { result ≡ content_in x held }
{
    if held == 0 {
        return None;
    }
    let status = ((held - 1) % 256) as u8;
    Some(Reading { count: x, status })
}

// The two words of what a version holds.
fn count(c: Content) -> u64
    ensures { result ≡ count_word c }
{
    match c {
        None => 0,
        Some(x) => x.count,
    }
}

fn held(c: Content) -> u64
    ensures { (result ≡ held_word c) × (result ≤ 256) }
{
    match c {
        None => 0,
        Some(x) => u64::from(x.status) + 1,
    }
}

// The slot at an index; a vacant one past the end.
pub fn load(row: &[[u64; 6]], i: usize) -> Slot
    ensures { result ≡ get_or (row_of row.now) i vacant_slot }
{
    if row.len() <= i {
        return slots::vacant();
    }
    let w = row[i];
    Slot {
        value: content(w[0], w[5]),
        low: w[1],
        high: w[2],
        older: w[3] as usize,
        newer: w[4] as usize,
    }
}

// The slot at an index is replaced; past the end nothing is.
pub fn store(row: &mut [[u64; 6]], i: usize, s: Slot)
    ensures { row_of row.new ≡ set (row_of row.old) i s }
{
    if row.len() <= i {
        return;
    }
    let value = s.value;
    let x = count(value);
    row[i] = [
        x,
        s.low,
        s.high,
        s.older as u64,
        s.newer as u64,
        held(value),
    ];
}
