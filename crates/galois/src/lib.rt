// The field of residues modulo a T without proper divisors, as an extension of the numbers modulo p: eigenvectors of the p-th power, the rounds of Algorithm 4.1, conjugates, and roots carried from one field to another. Definitions and theory; no code.
#![tactic(auto)]
