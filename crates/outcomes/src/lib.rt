// Single outcomes of a round and of the exported functions, as theorems about their promises (proofs/). There is no
// code on this floor.
#![tactic(auto)]
