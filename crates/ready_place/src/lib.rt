// Whether the numbers that a worker's place names are in range.
#![tactic(auto)]

ghost use Rattle.std.specs.Prelude.{◌≡◌, ◌≤◌};
ghost use Rattle.ready_place.specs.Place.{named_below, purpose_fits, read_fits, place_fits};

use places::Facts;
use worker::Purpose;

// Whether a register, a slot or a mark, if there is one, is below n.
fn below(x: Option<u16>, n: u16) -> bool
    ensures { result ≡ named_below x n }
{
    x.is_none_or(|i| i < n)
}

// Whether a total, if a place reads for one, is at one of k rows, with sums to which one value more may be added.
fn purpose_fits(x: Purpose, k: u16) -> bool
    ensures { result ≡ purpose_fits x k }
{
    match x {
        Purpose::Single | Purpose::Marked(_) => true,
        Purpose::Totaling {
            row,
            plus,
            minus,
            ..
        } => (row < k) & ((plus <= 30999999999969) & (minus <= 30999999999969)),
    }
}

// Whether so many times were read: of at most p workers, or of all of them and of all marks.
fn read_fits(read: u8, p: u8) -> bool
    ensures { result ≡ read_fits read p }
{
    let j = usize::from(read);
    let k = usize::from(p);
    (j <= k) | (j == k + 12)
}

// Whether the register, the slot, the count of times, the total and the mark that a worker's place names are in range.
pub fn place_fits(y: Facts, p: u8, v: u16, n: u16, k: u16) -> bool
    ensures { result ≡ place_fits y p v n k }
{
    ((below(y.register, v) & below(y.slot, n))
        & (read_fits(y.read, p) & purpose_fits(y.purpose, k)))
        & below(y.mark, 12)
}
