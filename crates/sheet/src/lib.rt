// The printed sheet of a pair: T1, T2, S and R with small signed coefficients.
//   coefficient   a word as a signed number, and coefficients in columns
//   lines         the lines of one list
//   print         the call
#![tactic(auto)]

mod coefficient;
mod lines;
pub mod print;
