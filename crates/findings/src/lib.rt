// Demand 3: what an accepted seal shows (specs/), and that there is no fourth case (proofs/). No code is
// here.
#![tactic(auto)]
