// Laws on lists and numbers that several crates cite (proofs/). There is no code on this floor.
#![tactic(auto)]
