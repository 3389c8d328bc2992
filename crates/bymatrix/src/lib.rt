// Conversion by matrix (request S-10): the matrices of a pair's two maps, each worked out once, and the conversion of a table by a matrix.
//   build     the public call `matrices`, with its refusals
//   convert   the public call `convert_by_matrix`, with its refusals
//   rows      a matrix row after row in a list, into an array and out of it
#![tactic(auto)]

pub mod build;
pub mod convert;
mod rows;
