// Comparison of residues in arrays.
//   equality   whether residues are equal, opposite, or that of X
#![tactic(auto)]

pub mod equality;
