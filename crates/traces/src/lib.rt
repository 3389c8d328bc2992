// X as a polynomial in a residue α whose n-th power is a constant, from traces in place of elimination.
//   newton       the traces of the powers of X
//   polynomial   the coefficients of the polynomial
#![tactic(auto)]

mod newton;
pub mod polynomial;
