// The simulation: what the code does to memory is what the model does. No code: definitions in specs/, proofs in proofs/.
#![tactic(auto)]
