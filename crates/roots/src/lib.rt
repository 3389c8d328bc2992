// Roots modulo a prime p (document 01, "The finder"): ζ of order n, and n-th roots, where n divides p − 1. Words only; no residues.
//   unity      ζ, among the roots of unity
//   radicand   a, with a^((p − 1)/n) = ζ
//   root       the smallest n-th root of a ratio
#![tactic(auto)]

pub mod radicand;
pub mod root;
pub mod unity;
