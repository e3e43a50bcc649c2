// What a call gives back, whatever it asks.
#![tactic(auto)]

use state::Hub;
use values::Answer;

#[derive(Clone, Copy)]
pub struct Called {
    // what is left of the hub by value
    pub hub: Hub,
    // the answer to one record or to a table; `Ok` where records are answered in two rows
    pub answer: Answer,
    // how many records were applied
    pub count: usize,
}
