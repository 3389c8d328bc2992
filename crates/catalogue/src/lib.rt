// Every model of a size (request S-12): how many monic polynomials of degree n modulo p have no monic divisor of degree 1 to n − 1, and the list of them.
//   call      the public calls `count_models` and `list_models`
//   number    the refusals by p and n
//   marks     what the sieve left unmarked: how many there are, and their words
#![tactic(auto)]

pub mod call;
mod marks;
mod number;
