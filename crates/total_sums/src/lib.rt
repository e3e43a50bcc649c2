// The sums of a total (H12.6, H12.9): what is added for a version, by the sign of its row, and the largest status.
#![tactic(auto)]

ghost use Rattle.std.specs.Prelude.{◌≡◌, cond, max, eqb};
ghost use Rattle.model.specs.Totals.{sign_of};
ghost use Rattle.model.specs.Store.{count_of, status_of};
ghost use Rattle.values.specs.Meaning.{content_of};
ghost use Rattle.total_sums.specs.Sums.{no_sum, added_to, sum_with};

use values::Content;
use worker::Sum;

// Nothing was read.
pub fn no_sum() -> Sum
    ensures { result ≡ no_sum }
{
    Sum {
        plus: 0,
        minus: 0,
        status: 0,
    }
}

// What a total adds for what a version holds, and the status that it reads there: without a reading 0.
pub fn count_of(x: Content) -> u64
    ensures { result ≡ count_of (content_of x) }
{
    match x {
        None => 0,
        Some(reading) => reading.count,
    }
}

fn status_of(x: Content) -> u8
    ensures { result ≡ status_of (content_of x) }
{
    match x {
        None => 0,
        Some(reading) => reading.status,
    }
}

// Whether the row's register is added; else it is subtracted.
fn is_plus(row: u32) -> bool
    ensures { result ≡ eqb (sign_of row) 0 }
{
    row / 256 % 256 == 0
}

// A sum with one value more. No value of more than twelve digits is added, and nothing to a sum of more than 31 of them.
fn added(sum: u64, x: u64) -> u64
    ensures { result ≡ added_to sum x }
{
    if sum <= 30999999999969 && x <= 999999999999 {
        return sum + x;
    }
    sum
}

// The sums with what the register of a row holds, by the row's sign.
pub fn sum_with(sum: Sum, row: u32, x: Content) -> Sum
    ensures { result ≡ sum_with sum row x }
{
    let count = count_of(x);
    let (more, less) = if is_plus(row) { (count, 0) } else { (0, count) };
    Sum {
        plus: added(sum.plus, more),
        minus: added(sum.minus, less),
        status: sum.status.max(status_of(x)),
    }
}
