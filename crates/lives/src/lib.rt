// The theory of lives: one task over time, many tasks in a window, and a theorem over any style. No functions: specs/
// and proofs/ are all of it.
#![tactic(auto)]
