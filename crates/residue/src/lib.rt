// Residues modulo a monic polynomial of degree up to 16, on arrays of 16 words.
//   modulus      a modulus T with its degree and the reciprocal of p
//   product      the product with delayed reduction, on which that of the ring rests
//   ring         product, power and substitution
//   difference   u − v
#![tactic(auto)]

pub mod difference;
pub mod modulus;
mod product;
pub mod ring;
