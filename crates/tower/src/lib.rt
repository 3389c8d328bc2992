// Algorithm 4.1 of source document 000, for degrees n = p^k (document 02, S-7): α of a model, by k equations v^p = v + a one after the other, each of them a linear system.
//   exponent    the k with n = p^k
//   equation    the solution of v^p = v + a with constant coefficient 0
//   generator   the rounds, which also decide whether a modulus has a proper divisor
#![tactic(auto)]

mod equation;
pub mod exponent;
pub mod generator;
