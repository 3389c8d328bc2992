// The program `fieldcard` as functions: what it prints for a card, and how it reads one and writes the answer.
//   print     what is printed for a card
//   input     a reader whose failed reads count as the end of the input
//   program   from a reader to a writer
#![tactic(auto)]

pub mod input;
pub mod print;
pub mod program;
#[cfg(test)]
mod tests;
