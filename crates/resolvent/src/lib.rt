// A quick guess at an eigenvector of u ↦ u^p on residues, which the caller tests.
//   lagrange   Lagrange's resolvent
#![tactic(auto)]

pub mod lagrange;
