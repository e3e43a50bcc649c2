// No code: what a value put to a register leaves unseen, of the calls.
#![tactic(auto)]
