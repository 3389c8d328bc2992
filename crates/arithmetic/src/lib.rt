// The public calls on residues: product, power and substitution on lent lists, with their refusals.
//   call     the calls
#![tactic(auto)]

pub mod call;
