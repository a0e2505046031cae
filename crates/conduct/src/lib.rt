// What an accepted tick does, as laws of the definitions. No functions: specs/ and proofs/ are all of it.
#![tactic(auto)]
