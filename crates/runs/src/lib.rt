// What holds of every list of session calls: what calls make, what refusals keep, what is converted, open tables, totals, and the same over C. Statements
// and proofs; no code.
#![tactic(auto)]
