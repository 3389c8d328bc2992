// What a number does to residues and matrices on arrays: c·u, u divided by its first word that is not 0, and M − z.
//   shift         a matrix minus a number
//   vector        multiples of residues, and division by the first word that is not 0
#![tactic(auto)]

pub mod shift;
pub mod vector;
