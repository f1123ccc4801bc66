// The rules worked out on a row small enough to compute (proofs/). There is no code on this floor.
#![tactic(auto)]
