// Commutative rings, fields, primes and finite lists. This crate has no code: specs/ holds the definitions and proofs/ their laws.
#![tactic(auto)]
