// No code: proofs/ hold the proofs of what crates/model/specs states of the definitions there.
#![tactic(auto)]
