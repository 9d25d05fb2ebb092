//! What written frames do in a run: statements and proofs, no code.

#![tactic(auto)]
