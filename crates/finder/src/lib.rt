// The finder (document 01; document 02, S-6 and S-7): the pair of Algorithm 2.1, or of Algorithm 4.1, for two models of one size.
//   find        the public call `find`, with its refusals
//   construct   the same on two moduli of one prime and one degree
#![tactic(auto)]

mod construct;
pub mod find;
