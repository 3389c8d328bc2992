// What the program `fieldcard` prints for a card, in definitions and theory (specs/, proofs/), and its parts as functions.
//   lines     the lines that are printed
//   job       the pair card of a job
#![tactic(auto)]

pub mod job;
pub mod lines;
