// The reads that stand on a slot, and their move off a slot that is freed (H5.27).
#![tactic(auto)]

ghost use Rattle.std.specs.Prelude.{◌≡◌};
ghost use Rattle.standing.specs.Standing.{off_doing, stands_on};

use places::Stand;
use worker::Doing;

// Whether a read stands on slot c.
pub fn stands_on(d: Doing, c: u16) -> bool
    ensures { result ≡ stands_on d c }
{
    let y = places::about(d);
    let on = y.stance;
    match on {
        None => false,
        Some(Stand { goal: _, slot }) => slot == c,
    }
}

// A read that stands on slot c moves to slot o.
pub fn off(d: Doing, c: u16, o: u16) -> Doing
    ensures { result ≡ off_doing c o d }
{
    let y = places::about(d);
    let on = y.stance;
    match on {
        None => d,
        Some(Stand { goal, slot }) => {
            if slot == c {
                return Doing::ReadStand { goal, slot: o };
            }
            d
        }
    }
}
