// The sponge of FIPS 202 as definitions (specs/) and the laws of its stream of bytes (proofs/). There is no code here.
#![tactic(auto)]
