// Systems of n ≤ 16 linear equations in n unknowns modulo a prime, by Gauss–Jordan elimination on one flat array with rows of 16 words.
// A row operation keeps the solutions, so the first column without a pivot shows a singular system, and otherwise the right side becomes the solution.
// The inverse of a pivot is worked out one time, before the columns (document 02, S-4).
#![tactic(auto)]

mod column;
mod row;
pub mod system;
