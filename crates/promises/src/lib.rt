// All that is promised, each statement with its proof. Statements and proofs; no code.
#![tactic(auto)]
