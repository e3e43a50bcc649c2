// No code: definitions and laws on lists that contracts of several crates share.
#![tactic(auto)]
