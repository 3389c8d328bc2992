// Gauss's formula for the number of models of a size: a statement for teaching, and its proof; its laws of X^(p^n) − X serve the crate isomorphisms too. No code.
#![tactic(auto)]
