// The monic polynomials of degree n modulo p that have a monic divisor of degree 1 to n − 1, marked by a sieve: the multiples of those of degree up to n/2 that have none
// are struck out. The code of a polynomial is the number whose digits in base p are its words without the leading 1, the constant the lowest, so that codes are in the order of the
// polynomials; the mark of the one of degree m with the code c is mark p^m + c.
//   sieve       the marks
//   strike      the multiples of one polynomial
//   lows        the lower words of these multiples, as numbers, by their higher words
//   plane       one of these words
//   digits      powers of p, and the digits of a number
#![tactic(auto)]

pub mod digits;
mod lows;
mod plane;
pub mod sieve;
mod strike;
