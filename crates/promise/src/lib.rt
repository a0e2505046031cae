// Demand 3, stated in specs/ and proved in proofs/. No functions: it speaks of the definitions that admission and
// machine are proved to meet.
#![tactic(auto)]
