// The model has no code: specs/ say what the hub is and does, in the order of the rules in docs/HUB.md.
#![tactic(auto)]
