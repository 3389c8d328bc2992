// Whether a modulus T of degree n has a monic divisor of degree 1 to n − 1, for every n from 1 to 16, by Rabin's criterion: X^(p^n) = X modulo T, and for each prime q
// that divides n, X^(p^(n/q)) − X has an inverse modulo T.
//   call         the call for one modulus, with its refusals
//   rabin        the test
//   conjugate    X^(p^k) modulo T, by the matrix of u ↦ u^p
//   inverse      whether a residue has an inverse
#![tactic(auto)]

pub mod call;
mod conjugate;
mod inverse;
mod rabin;
