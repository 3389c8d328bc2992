// The matrix of u ↦ u(S) on residues: its columns are the powers of S, worked out once for many substitutions.
//   powers      the matrix, and its columns
//   frobenius   the matrix of u ↦ u^p
//   multiples   the matrix of u ↦ u·S, by which many powers are worked out
//   product     the product of a matrix with a residue
//   words       the product of a matrix with a list of words
#![tactic(auto)]

pub mod frobenius;
pub mod multiples;
pub mod powers;
pub mod product;
pub mod words;
