//! What a read-back means in the run of the cycle rules: statements and proofs, no code.

#![tactic(auto)]
