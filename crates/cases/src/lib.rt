// The worked cases P1 to P10 of document 01, its cases at the limits and the rehearsals of wish 1, as rows of one
// statement about the definitions: specs/ and proofs/ are all of it.
#![tactic(auto)]
