// What a good text of document 01 is, how one is read, and that the reading is right for every list of bytes. No
// functions: specs/ and proofs/ are all of it.
#![tactic(auto)]
