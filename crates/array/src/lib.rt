// Words in lists and in arrays: residues and matrices as flat arrays of 64-bit words, and the lists of words that calls are lent.
// A residue stands in an array of 16 words and a matrix in one of 256, with the degree n beside: nothing is
// allocated, and document 01 holds the matrix "as one flat array of 256 words".
//   list   whether every word of a list is below p
//   copy   a list of words into an array, and back
#![tactic(auto)]

pub mod copy;
pub mod list;

// A word of a list that a call is lent (document 01: "passed as n 16-bit words"; request S-9: "Words become 32 bits wide").
pub type Word = u32;
