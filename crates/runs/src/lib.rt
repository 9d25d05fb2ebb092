//! What every run of cycles does: who wins, what opens, where each head byte comes from, and what a well-formed frame shows. There is no code
//! here: the statements are in `specs/`, their proofs in `proofs/`.

#![tactic(auto)]
