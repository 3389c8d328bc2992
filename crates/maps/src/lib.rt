// All the maps of a pair (request S-5): from an accepted pair, the n polynomials S' with T1(S') = 0 modulo T2, in ascending order.
//   call         the public call `maps`, with its refusals
//   conjugates   S, S^p, S^(p²), … modulo T2, one after the other into a list in order
#![tactic(auto)]

pub mod call;
mod conjugates;
