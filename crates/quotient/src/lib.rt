// Residues modulo a monic polynomial: the definitions (specs/) that every contract on residues cites, and their theory (proofs/). No code.
#![tactic(auto)]
