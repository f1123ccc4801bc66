// The three demands, as theorems about the promises of the operations (proofs/). There is no code on this floor.
#![tactic(auto)]
