// Definitions and laws of numbers and lists that the crates above share. No functions: specs/ and proofs/ are all of
// it.
#![tactic(auto)]
