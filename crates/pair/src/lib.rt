// The pair and its checker (document 01): four congruences that make S and R inverse isomorphisms of the residues modulo T1 and modulo T2, which are fields.
//   checker      the public call `check`, with its refusals
//   congruence   the test of the congruences, on arrays of 16 words
#![tactic(auto)]

pub mod checker;
mod congruence;
