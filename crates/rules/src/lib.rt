// FIPS 205 as definitions (specs/) and the theorems about them (proofs/). There is no code on this floor.
#![tactic(auto)]
