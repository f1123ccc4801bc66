// How many calls of each kind a check makes, and the bounds of that number: definitions and laws alone.
#![tactic(auto)]
