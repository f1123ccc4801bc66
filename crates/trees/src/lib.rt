// The nodes of a key's own hash trees, and the siblings along the way from a leaf (FIPS 205, algorithms 9, 10, 14
// to 16).
#![tactic(auto)]

pub mod nodes;
pub mod paths;
