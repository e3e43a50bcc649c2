// What is shown: the answer of a get or a read for what a version holds, and of a total for its sums.
#![tactic(auto)]

ghost use Rattle.std.specs.Prelude.{◌≡◌};
ghost use Rattle.showing.specs.Shown.{answer_to, signed_of};

use values::{Answer, Content, Reading};
use worker::Sum;

// What a get or a read answers that found x.
pub fn answer_for(x: Content) -> Answer
    ensures { result ≡ answer_to x }
{
    match x {
        None => Answer::None,
        Some(reading) => Answer::Value(reading),
    }
}

// What a total answers with the sums of all its rows.
pub fn signed(sum: Sum) -> Answer
    ensures { result ≡ signed_of sum }
{
    let status = sum.status;
    if sum.minus <= sum.plus {
        let count = sum.plus - sum.minus;
        return Answer::Value(Reading { count, status });
    }
    let count = sum.minus - sum.plus;
    Answer::Below(Reading { count, status })
}
