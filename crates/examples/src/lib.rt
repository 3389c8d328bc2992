// The examples A to I of document 01 and examples of the requests, computed from the definitions that the contracts cite. Statements and proofs; no code.
#![tactic(auto)]
