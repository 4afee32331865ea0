// Pairs of an input and its rewriting: definitions and theorems alone, in specs/ and proofs/.
#![tactic(auto)]
