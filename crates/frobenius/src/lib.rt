// Eigenvectors of u ↦ u^p on residues, and polynomials in a residue, by linear systems on arrays of 16 words.
//   kernel        the residues with u^p = z·u
//   eigenvector   an eigenvector, which also decides whether a modulus has a proper divisor
//   scaling       its multiple whose n-th power is a given number
//   image         the polynomial that takes one residue to X, at another residue
#![tactic(auto)]

pub mod eigenvector;
pub mod image;
mod kernel;
pub mod scaling;
