// Residues in ascending order, coefficients compared from the highest power down.
//   insert   insertion into rows in order
//   order    which of two residues comes first
#![tactic(auto)]

pub mod insert;
mod order;
