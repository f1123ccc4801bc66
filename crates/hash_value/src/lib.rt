// The definition of SHAKE256 at one value: see proofs/Value.antt.
#![tactic(auto)]
