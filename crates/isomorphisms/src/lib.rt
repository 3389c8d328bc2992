// Every isomorphism of two models is the forward map of one accepted pair, and stands in the list of all maps: statements and proofs. No code.
#![tactic(auto)]
